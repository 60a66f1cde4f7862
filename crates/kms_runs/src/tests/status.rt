// What the operator reads.
use kms_journal::Place;
use kms_ring::{BadKey, BadLine};
use kms_serve::Status;
use kms_world::{Id, Name};
use std::rt::HostRuntime;

// Whether this is the line of a status.
fn says(status: Status, line: &[u8]) -> bool {
    let mut room = [0u8; 192];
    let length = status.line(&mut room);
    &room[..length] == line
}

// Whether this is the line of a bad key file.
fn says_bad(line: u8, why: BadKey, text: &[u8]) -> bool {
    says(Status::BadKeyFile(BadLine { line, why }), text)
}

#[test]
fn statuses_of_keys_have_a_line(rt: HostRuntime) {
    let project = Name::read(b"p1").map(Status::UnknownMaster);
    let secret = Status::DamagedPayload(Id(0x0123_4567_89ab_8cde_8000_0000_0000_0000));
    assert!(rt;
        says(Status::KeyFileFault, b"barbicand: key file fault\n")
            && Status::KeyFileFault.code() == 11
    );
    assert!(rt;
        says_bad(
            3,
            BadKey::NotAKey,
            b"barbicand: key file line 3: not a key\n"
        )
    );
    assert!(rt;
        says_bad(
            2,
            BadKey::SameAs(1),
            b"barbicand: key file line 2: same as line 1\n"
        )
    );
    assert!(rt;
        says_bad(
            17,
            BadKey::TooMany,
            b"barbicand: key file line 17: too many keys\n"
        )
    );
    assert!(rt;
        says(
            secret,
            b"barbicand: damaged: secret 01234567-89ab-8cde-8000-000000000000\n"
        ) && secret.code() == 10
    );
    let Some(unknown) = project else {
        assert!(rt; false);
        return;
    };
    assert!(rt; says(unknown, b"barbicand: no master key for project p1\n") && unknown.code() == 7);
}

#[test]
fn statuses_have_a_line(rt: HostRuntime) {
    let damage = Status::Damaged(Place::Body { file: 0, at: 58 });
    assert!(rt; says(Status::Done, b""));
    assert!(rt; says(Status::Words, b"barbicand: words not understood\n"));
    assert!(rt; says(Status::NoStore, b"barbicand: no store\n"));
    assert!(rt; says(Status::StoreExists, b"barbicand: store exists\n"));
    assert!(rt; says(Status::StoreFault, b"barbicand: store fault\n"));
    assert!(rt; says(Status::DrawFault, b"barbicand: draw fault\n"));
    assert!(rt;
        says(
            Status::Rest(144),
            b"barbicand: stream ends inside a message at byte 144\n"
        )
    );
    assert!(rt;
        says(
            Status::Unreadable(0),
            b"barbicand: unreadable message at byte 0\n"
        )
    );
    assert!(rt; says(damage, b"barbicand: damaged: file 0 at 58\n"));
}
