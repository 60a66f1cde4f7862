// The paths of the API.
ghost use Rattle.std.specs.Prelude.{◌≡◌, [], IfOk, OnOk};
ghost use Rattle.kms_http.specs.Routes as spec;

use crate::path::Path;
use kms_world::NoMemory;
use matchit::{InsertError, Router};
use std::alloc::Global;
use std::marker::Model;

fn add_secrets(router: &mut Router<Path>) -> Result<(), InsertError>
    requires { router.old ≡ [] }
    ensures { OnOk result (router.new ≡ spec.secrets_rows) }
{
    router.insert("/v1/secrets", Path::Secrets)?;
    router.insert("/v1/secrets/{id}", Path::Secret)?;
    router.insert("/v1/secrets/{id}/payload", Path::Payload)?;
    router.insert("/v1/secrets/{id}/metadata", Path::Metadata)?;
    Ok(())
}

fn add_metadata(router: &mut Router<Path>) -> Result<(), InsertError>
    requires { router.old ≡ spec.secrets_rows }
    ensures { OnOk result (router.new ≡ spec.metadata_rows) }
{
    router.insert("/v1/secrets/{id}/metadata/{key}", Path::Pair)?;
    router.insert("/v1/secrets/{id}/acl", Path::SecretAcl)?;
    router.insert("/v1/containers/{id}/acl", Path::ContainerAcl)?;
    router.insert("/v1/containers", Path::Containers)?;
    Ok(())
}

fn add_containers(router: &mut Router<Path>) -> Result<(), InsertError>
    requires { router.old ≡ spec.metadata_rows }
    ensures { OnOk result (router.new ≡ spec.containers_rows) }
{
    router.insert("/v1/containers/{id}", Path::Container)?;
    router.insert("/v1/containers/{id}/secrets", Path::Members)?;
    router.insert("/v1/containers/{id}/consumers", Path::Consumers)?;
    router.insert("/v1/orders", Path::Orders)?;
    Ok(())
}

fn add_quotas(router: &mut Router<Path>) -> Result<(), InsertError>
    requires { router.old ≡ spec.containers_rows }
    ensures { OnOk result (router.new ≡ spec.quotas_rows) }
{
    router.insert("/v1/orders/{id}", Path::Order)?;
    router.insert("/v1/quotas", Path::Quotas)?;
    router.insert("/v1/project-quotas", Path::ProjectQuotas)?;
    router.insert("/v1/project-quotas/{project}", Path::ProjectQuota)?;
    Ok(())
}

fn table(alloc: Global) -> Result<Router<Path>, InsertError>
    ensures { IfOk result (λ router. router ≡ spec.table_rows) }
{
    let mut router = Router::new(alloc);
    add_secrets(&mut router)?;
    add_metadata(&mut router)?;
    add_containers(&mut router)?;
    add_quotas(&mut router)?;
    Ok(router)
}

/// The paths of the API. Built once; looking a path up takes no memory.
#[derive(Drop)]
pub struct Routes {
    router: Router<Path>,
}

impl Model for Routes {
    ghost use Rattle.std.specs.Prelude.{◌≡◌};
    ghost use Rattle.kms_http.specs.Routes.{table_rows};

    ghost Value = { Unit {0} };

    ghost view = { λ r. tt };

    ghost invariant = { λ r. r.router ≡ table_rows };
}

impl Routes {
    /// The table of all paths.
    pub fn new(alloc: Global) -> Result<Routes, NoMemory> {
        match table(alloc) {
            Ok(router) => Ok(Routes { router }),
            // no route of the table is refused: there was no memory
            Err(_) => Err(NoMemory),
        }
    }

    /// The path of the table that a text is, or None.
    pub fn find(&self, path: &str) -> Option<Path>
        ensures { result ≡ spec.path_of path.now }
    {
        match self.router.at(path) {
            Ok(found) => Some(*found.value),
            Err(_) => None,
        }
    }
}
