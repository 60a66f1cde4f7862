// Random bytes for a payload.
ghost use Rattle.std.specs.Prelude.{◌≡◌, not, length, is_some, IfOk};
ghost use Rattle.kms_host.specs.Faults.{HasCause};
ghost use Rattle.kms_host.specs.History.{Tells, Stops, answer, then_call};
ghost use Rattle.kms_host.specs.Moment.{Since};
ghost use Rattle.kms_host.specs.declared.call.Call.TheVariants as calls;
ghost use Rattle.kms_host.specs.declared.call.Count.TheVariants as counts;
ghost use Rattle.kms_host.specs.declared.call.Purpose.TheVariants as purposes;
ghost use Rattle.kms_sealing.specs.Drawing.{AreSealingDraws, Draws, DrawsKey};
ghost use Rattle.kms_sealing.specs.Places.{has_key};

use crate::places::latest;
use crate::project_keys::look_up;
use kms_host::{Failed, Host, Purpose};
use kms_store::Tables;
use kms_world::Name;

/// What is drawn for the first key of a project: its bytes, and the initialization vector that it is wrapped with.
#[derive(Drop)]
pub struct KeyDraw {
    pub key: [u8; 32],
    pub iv: [u8; 16],
}

/// What is drawn for one payload: for a project without a key what its key needs, and the initialization vector of the
/// payload's token.
#[derive(Drop)]
pub struct Drawn {
    pub key: Option<KeyDraw>,
    pub iv: [u8; 16],
}

fn draw_iv<H: Host>(host: &mut H) -> Result<[u8; 16], Failed>
    ensures told { Tells (H.history host.old) (H.history host.new) (λ was now. now ≡ then_call was (calls.Drew purposes.Iv (answer result))) }
    ensures size { IfOk result (λ iv. length iv ≡ 16) }
    ensures cause { HasCause counts.Draw (H.faults host.old) (H.faults host.new) result }
    ensures stops { Stops (H.wanted host.old) (H.wanted host.new) (H.history host.old) (H.history host.new) }
{
    let mut iv = [0; 16];
    host.draw(Purpose::Iv, &mut iv)?;
    Ok(iv)
}

fn draw_bytes<H: Host>(host: &mut H) -> Result<[u8; 32], Failed>
    ensures told { Tells (H.history host.old) (H.history host.new) (λ was now. now ≡ then_call was (calls.Drew purposes.ProjectKey (answer result))) }
    ensures size { IfOk result (λ key. length key ≡ 32) }
    ensures cause { HasCause counts.Draw (H.faults host.old) (H.faults host.new) result }
    ensures stops { Stops (H.wanted host.old) (H.wanted host.new) (H.history host.old) (H.history host.new) }
{
    let mut key = [0; 32];
    host.draw(Purpose::ProjectKey, &mut key)?;
    Ok(key)
}

// What a project's key needs, if it needs one.
fn draw_key<H: Host>(host: &mut H, needed: bool) -> Result<Option<KeyDraw>, Failed>
    ensures needed { IfOk result (λ key. is_some key ≡ needed) }
    ensures told { Since (H.history host.old) (H.history host.new) (λ was calls. DrawsKey needed result calls × AreSealingDraws calls) }
    ensures cause { HasCause counts.Draw (H.faults host.old) (H.faults host.new) result }
    ensures stops { Stops (H.wanted host.old) (H.wanted host.new) (H.history host.old) (H.history host.new) }
{
    if !needed {
        return Ok(None);
    }
    let Ok(key) = draw_bytes(host) else {
        return Err(Failed);
    };
    let Ok(iv) = draw_iv(host) else {
        return Err(Failed);
    };
    Ok(Some(KeyDraw { key, iv }))
}

/// Draws what a payload of this project needs: where these tables have no key of the project, the 32 bytes of a key and the
/// 16 of the initialization vector that it is wrapped with; and then the 16 of that of the payload's token. `Failed` comes
/// only where a draw failed.
pub fn draw<H: Host>(host: &mut H, tables: &Tables, project: &Name) -> Result<Drawn, Failed>
    ensures needed { IfOk result (λ drawn. is_some drawn.key ≡ not (has_key project.now tables.now.kept.keys)) }
    ensures told { Since (H.history host.old) (H.history host.new) (λ was calls. Draws (not (has_key project.now tables.now.kept.keys)) result calls × AreSealingDraws calls) }
    ensures cause { HasCause counts.Draw (H.faults host.old) (H.faults host.new) result }
    ensures stops { Stops (H.wanted host.old) (H.wanted host.new) (H.history host.old) (H.history host.new) }
{
    let needed = !has_key(tables, project);
    let Ok(key) = draw_key(host, needed) else {
        return Err(Failed);
    };
    let Ok(iv) = draw_iv(host) else {
        return Err(Failed);
    };
    Ok(Drawn { key, iv })
}

// The project has a key in these tables.
fn has_key(tables: &Tables, project: &Name) -> bool
    ensures { result ≡ has_key project.now tables.now.kept.keys }
{
    look_up(tables);
    match latest(tables.keys(), project) {
        Some(_) => true,
        None => false,
    }
}
