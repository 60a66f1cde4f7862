// The parts of a request target.
ghost use Rattle.std.specs.Prelude.{◌≡◌, ◌==◌};
ghost use Rattle.std.specs.List.{before_first, after_first};
ghost use Rattle.kms_http.specs.Targets as spec;

fn before_query<'a>(target: &'a str) -> &'a str
    ensures { result.now ≡ before_first (λ b. b == 63) target.entry.now }
{
    match target.split_once('?') {
        Some((path, _)) => path,
        None => target,
    }
}

fn without_slash<'a>(path: &'a str) -> &'a str
    ensures { result.now ≡ spec.drop_slash path.entry.now }
{
    match path.strip_suffix('/') {
        Some(front) => front,
        None => path,
    }
}

fn after_slash<'a>(path: &'a str) -> &'a str
    ensures { result.now ≡ after_first (λ b. b == 47) path.entry.now }
{
    match path.split_once('/') {
        Some((_, rest)) => rest,
        None => "",
    }
}

fn before_slash<'a>(path: &'a str) -> &'a str
    ensures { result.now ≡ before_first (λ b. b == 47) path.entry.now }
{
    match path.split_once('/') {
        Some((front, _)) => front,
        None => path,
    }
}

/// The path: up to `?`, without one slash at its end.
pub fn path_text<'a>(target: &'a str) -> &'a str
    ensures { result.now ≡ spec.path_text target.entry.now }
{
    without_slash(before_query(target))
}

/// The query: after `?`, empty where there is none.
pub fn query_text<'a>(target: &'a str) -> &'a str
    ensures { result.now ≡ spec.query_text target.entry.now }
{
    match target.split_once('?') {
        Some((_, query)) => query,
        None => "",
    }
}

/// The third segment of a path: what stands after `/v1/secrets/`, and the like, up to the next slash.
pub fn third_segment<'a>(path: &'a str) -> &'a str
    ensures { result.now ≡ spec.segment 3 path.entry.now }
{
    before_slash(after_slash(after_slash(after_slash(path))))
}

/// The fifth segment of a path, counted likewise.
pub fn fifth_segment<'a>(path: &'a str) -> &'a str
    ensures { result.now ≡ spec.segment 5 path.entry.now }
{
    third_segment(after_slash(after_slash(path)))
}
