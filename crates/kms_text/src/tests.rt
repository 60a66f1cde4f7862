// Times and ids at the edges. The times' values are Python's: tests/time_vectors.sh computes them again.
use crate::{Kind, id_text, read_id, read_ref, read_time, ref_text, time_text};
use kms_world::{Id, id_of};
use std::test::Fail;

static WRITTEN: [(u64, &str); 17] = [
    (0, "1970-01-01T00:00:00"),
    (1, "1970-01-01T00:00:01"),
    (59, "1970-01-01T00:00:59"),
    (86_399, "1970-01-01T23:59:59"),
    (86_400, "1970-01-02T00:00:00"),
    (499_162_800, "1985-10-26T08:20:00"),
    (951_782_399, "2000-02-28T23:59:59"),
    (951_782_400, "2000-02-29T00:00:00"),
    (951_868_799, "2000-02-29T23:59:59"),
    (951_868_800, "2000-03-01T00:00:00"),
    (1_000_000_000, "2001-09-09T01:46:40"),
    (1_704_067_199, "2023-12-31T23:59:59"),
    (1_709_251_199, "2024-02-29T23:59:59"),
    (4_107_542_399, "2100-02-28T23:59:59"),
    (4_107_542_400, "2100-03-01T00:00:00"),
    (13_574_563_200, "2400-02-29T00:00:00"),
    (253_402_300_799, "9999-12-31T23:59:59"),
];

static READ: [(&str, Option<u64>); 72] = [
    ("1985-10-26T01:20:00-07:00", Some(499_162_800)),
    ("1985-10-26T08:20:00.180394", Some(499_162_800)),
    ("1985-02-29T00:00:00", None),
    ("9999-12-31T23:59:59", Some(253_402_300_799)),
    ("1970-01-01T00:00:00+00:01", None),
    ("1970-01-01T00:00:00", Some(0)),
    ("1969-12-31T23:59:59", None),
    ("1969-12-31T23:59:00-00:01", Some(0)),
    ("1969-12-31T00:01:00-23:59", Some(0)),
    ("1969-12-31T00:00:59-23:59", None),
    ("9999-12-31T23:59:59-00:01", None),
    ("9999-12-31T23:59:59+23:59", Some(253_402_214_459)),
    ("2000-02-29T12:00:00", Some(951_825_600)),
    ("2100-02-29T12:00:00", None),
    ("2400-02-29T12:00:00", Some(13_574_606_400)),
    ("1900-02-29T12:00:00", None),
    ("2024-02-29T23:59:59Z", Some(1_709_251_199)),
    ("2023-02-29T23:59:59Z", None),
    ("2024-02-30T00:00:00", None),
    ("2023-04-31T00:00:00", None),
    ("2023-04-30T00:00:00", Some(1_682_812_800)),
    ("2023-06-31T00:00:00", None),
    ("2023-12-32T00:00:00", None),
    ("2023-13-01T00:00:00", None),
    ("2023-00-10T00:00:00", None),
    ("2023-01-00T00:00:00", None),
    ("2023-01-01T00:00:00", Some(1_672_531_200)),
    ("2023-12-31T23:59:59", Some(1_704_067_199)),
    ("2024-12-31T23:59:59", Some(1_735_689_599)),
    ("2016-12-31T23:59:60", None),
    ("2023-07-01T24:00:00", None),
    ("2023-07-01T23:60:00", None),
    ("2001-09-09T01:46:40Z", Some(1_000_000_000)),
    ("2001-09-09T01:46:40+23:59", Some(999_913_660)),
    ("2001-09-09T01:46:40-23:59", Some(1_000_086_340)),
    ("2001-09-09T01:46:40+24:00", None),
    ("2001-09-09T01:46:40-00:60", None),
    ("2001-09-09T01:46:40+00:00", Some(1_000_000_000)),
    ("2001-09-09T01:46:40.1", Some(1_000_000_000)),
    ("2001-09-09T01:46:40.12", Some(1_000_000_000)),
    ("2001-09-09T01:46:40.123Z", Some(1_000_000_000)),
    ("2001-09-09T01:46:40.1234", Some(1_000_000_000)),
    ("2001-09-09T01:46:40.12345", Some(1_000_000_000)),
    ("2001-09-09T01:46:40.123456+01:00", Some(999_996_400)),
    ("2001-09-09T01:46:40.1234567", Some(1_000_000_000)),
    ("2001-09-09T01:46:40.12345678", Some(1_000_000_000)),
    ("2001-09-09T01:46:40.999999999-01:30", Some(1_000_005_400)),
    ("2001-09-09T01:46:40.", None),
    ("2001-09-09T01:46:40.Z", None),
    ("2001-09-09T01:46:40.1234567890", None),
    ("2001-09-09T01:46:40.12a", None),
    ("2001-09-09T01:46:40,5", None),
    ("2001-09-09t01:46:40", None),
    ("2001-09-09T01:46:40z", None),
    ("2001-09-09 01:46:40", None),
    ("2001-09-09T01:46:40 ", None),
    (" 2001-09-09T01:46:40", None),
    ("2001-09-09T01:46:40ZZ", None),
    ("2001-09-09T01:46:40Z.5", None),
    ("2001-09-09T01:46:40+0100", None),
    ("2001-09-09T01:46:40+01", None),
    ("2001-09-09T01:46:40*01:00", None),
    ("2001-09-09T01:46:40+1:000", None),
    ("2001-09-09T01:46:4", None),
    ("2001-9-09T01:46:40", None),
    ("2001/09/09T01:46:40", None),
    ("+2001-09-09T01:46:40", None),
    ("0000-01-01T00:00:00+23:59", None),
    ("0000-02-29T00:00:00", None),
    ("10000-01-01T00:00:00", None),
    ("2001-09-09", None),
    ("", None),
];

#[test]
fn times_are_written_and_read(rt: HostRuntime) -> Result<(), Fail> {
    for (moment, text) in WRITTEN.iter() {
        let moment = *moment % 253_402_300_800;
        assert_eq!(rt; time_text(moment).as_slice(), text.as_bytes());
    }
    for (text, moment) in READ.iter() {
        assert_eq!(rt; read_time(text.as_bytes()), *moment, "{text}");
    }
    Ok(())
}

static IDS: [(&str, Option<u128>); 17] = [
    (
        "01234567-89ab-8cde-8000-000000000000",
        Some(0x01234567_89ab_8cde_8000_000000000000),
    ),
    (
        "01234567-89ab-8cde-bfff-ffffffffffff",
        Some(0x01234567_89ab_8cde_bfff_ffffffffffff),
    ),
    (
        "01234567-89AB-8CDE-BFFF-FFFFFFFFFFFF",
        Some(0x01234567_89ab_8cde_bfff_ffffffffffff),
    ),
    (
        "aBcDeF00-0000-0000-0000-00000000000f",
        Some(0xabcdef00_0000_0000_0000_00000000000f),
    ),
    (
        "ffffffff-ffff-ffff-ffff-ffffffffffff",
        Some(0xffffffff_ffff_ffff_ffff_ffffffffffff),
    ),
    ("00000000-0000-0000-0000-000000000000", Some(0)),
    ("{01234567-89ab-8cde-8000-00000000000", None),
    ("{01234567-89ab-8cde-8000-000000000000}", None),
    ("urn:uuid:01234567-89ab-8cde-8000-000000000000", None),
    ("0123456789ab8cde8000000000000000", None),
    ("01234567-89ab-8cde-8000-00000000000", None),
    ("01234567-89ab-8cde-8000-0000000000000", None),
    ("0123456-789ab-8cde-8000-000000000000", None),
    ("01234567089ab-8cde-8000-000000000000", None),
    ("01234567-89ab-8cde-8000-00000000000g", None),
    ("01234567-89ab-8cde-8000-0000000000é", None),
    ("", None),
];

#[test]
fn ids_are_written_and_read(rt: HostRuntime) -> Result<(), Fail> {
    let id = id_of(0x0123_4567_89ab_cde, 0);
    assert_eq!(rt;
        id_text(id).as_slice(),
        b"01234567-89ab-8cde-8000-000000000000".as_slice()
    );
    let last = id_of(0x0123_4567_89ab_cde, 0x3fff_ffff_ffff_ffff);
    assert_eq!(rt;
        id_text(last).as_slice(),
        b"01234567-89ab-8cde-bfff-ffffffffffff".as_slice()
    );
    for (text, number) in IDS.iter() {
        assert_eq!(rt; read_id(text.as_bytes()).map(|id| id.0), *number, "{text}");
    }
    Ok(())
}

#[test]
fn links_are_written_and_read(rt: HostRuntime) -> Result<(), Fail> {
    let id = id_of(0x0123_4567_89ab_cde, 0);
    let link = ref_text(rt.alloc(), "http://k/v1", Kind::Secret, id)?;
    assert_eq!(rt;
        link.as_str(),
        "http://k/v1/secrets/01234567-89ab-8cde-8000-000000000000"
    );
    let order = ref_text(rt.alloc(), "", Kind::Order, id)?;
    assert_eq!(rt;
        order.as_str(),
        "/orders/01234567-89ab-8cde-8000-000000000000"
    );
    assert_eq!(rt; read_ref(Kind::Secret, link.as_str().as_bytes()), Some(id));
    assert_eq!(rt; read_ref(Kind::Container, link.as_str().as_bytes()), None);
    assert_eq!(rt;
        read_ref(
            Kind::Order,
            b"x/orders/01234567-89AB-8cde-8000-000000000000"
        ),
        Some(id)
    );
    assert_eq!(rt;
        read_ref(Kind::Order, b"orders/01234567-89ab-8cde-8000-000000000000"),
        None
    );
    assert_eq!(rt;
        read_ref(
            Kind::Order,
            b"/orders/01234567-89ab-8cde-8000-000000000000/"
        ),
        None
    );
    assert_eq!(rt;
        read_ref(
            Kind::Container,
            b"/containers//01234567-89ab-8cde-8000-000000000000"
        ),
        None
    );
    assert_eq!(rt; read_ref(Kind::Secret, b"/secrets/"), None);
    Ok(())
}
