// Dates of replies.
ghost use Rattle.std.specs.Prelude.{◌≡◌, ◌<◌};
ghost use Rattle.kms_http.specs.Date.{date_of};

use httpdate::HttpDate;

/// The date of a second since 1970, before the year 10000, as HTTP writes it (RFC 9110 section 5.6.7).
pub fn date_text(moment: u64) -> [u8; 29]
    requires { moment < 253402300800 }
    ensures { result ≡ date_of moment }
{
    HttpDate::from_unix_secs(moment).unwrap().to_bytes()
}
