// Request methods, and those of each path.
ghost use Rattle.std.specs.Prelude.{◌≡◌};
ghost use Rattle.kms_http.specs.Methods as spec;

use crate::path::Path;
use kms_world::Allow;

/// A method of the API (RFC 9110 section 9.3, RFC 5789).
#[derive(Clone, Copy, Debug, PartialEq, Eq)]
pub enum Method {
    Get,
    Post,
    Put,
    Patch,
    Delete,
}

/// The method of this name, in this case. None where the API has no such method.
pub fn read_method(name: &str) -> Option<Method>
    ensures { result ≡ spec.method_of name.now }
{
    if name == "GET" {
        Some(Method::Get)
    } else if name == "POST" {
        Some(Method::Post)
    } else if name == "PUT" {
        Some(Method::Put)
    } else if name == "PATCH" {
        Some(Method::Patch)
    } else if name == "DELETE" {
        Some(Method::Delete)
    } else {
        None
    }
}

/// The methods that a path has.
pub fn allow_of(path: Path) -> Allow
    ensures { result ≡ spec.allow_of path }
{
    let none = Allow {
        get: false,
        post: false,
        put: false,
        patch: false,
        delete: false,
    };
    let get = Allow { get: true, ..none };
    match path {
        Path::Secrets | Path::Containers | Path::Orders => Allow { post: true, ..get },
        Path::Secret | Path::Pair | Path::ProjectQuota => Allow {
            put: true,
            delete: true,
            ..get
        },
        Path::Payload | Path::Quotas | Path::ProjectQuotas => get,
        Path::Metadata => Allow {
            post: true,
            put: true,
            ..get
        },
        Path::SecretAcl | Path::ContainerAcl => Allow {
            put: true,
            patch: true,
            delete: true,
            ..get
        },
        Path::Container | Path::Order => Allow {
            delete: true,
            ..get
        },
        Path::Members => Allow {
            post: true,
            delete: true,
            ..none
        },
        Path::Consumers => Allow {
            post: true,
            delete: true,
            ..get
        },
    }
}
