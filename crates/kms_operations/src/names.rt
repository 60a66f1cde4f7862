// The names of callers.
ghost use Rattle.std.specs.Prelude.{◌≤◌, length};

use kms_world::Caller;

// A record has room for each name.
pub fn names_fit(caller: &Caller)
    ensures project { length caller.now.project ≤ 64 }
    ensures user { length caller.now.user ≤ 64 }
{
    prove!(caller.project.as_bytes().len() <= 64);
    prove!(caller.user.as_bytes().len() <= 64);
}
