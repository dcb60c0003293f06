//! What commands come to at a name.

use commands::{Course, Place, Refusal, Stands};
use directory::Target;
use layout::{INumber, Principal};
use std::process::Abort;

fn target(rt: &impl Abort, principal: u8, i_number: u16) -> Target {
    Target {
        principal: Principal::new(principal).expect(rt, "a principal"),
        i_number: INumber::new(i_number).expect(rt, "an i-number"),
    }
}

#[test]
fn commands_at_a_new_name(rt: HostRuntime) {
    let new = Place::New {
        directory: target(&rt, 0, 2),
        name: "n",
    };
    assert!(rt; matches!(new.put(None), Course::Refuse(Refusal::NoNumber)));
    assert!(rt; matches!(new.make(INumber::new(7)), Course::MakeNamed { .. }));
    assert!(rt; matches!(new.remove(), Course::Refuse(Refusal::NoPath)));
    assert!(rt; matches!(new.link(target(&rt, 1, 9)), Course::Link { .. }));
}

#[test]
fn commands_at_an_old_name(rt: HostRuntime) {
    let old = Place::Old {
        directory: target(&rt, 0, 2),
        name: "n",
        target: target(&rt, 1, 9),
        stands: Stands::File,
    };
    assert!(rt; matches!(old.put(None), Course::Put(_)));
    assert!(rt; matches!(old.remove(), Course::Unlink { .. }));
    let new = Place::New {
        directory: target(&rt, 0, 2),
        name: "m",
    };
    assert!(rt; matches!(old.add_name(&new), Course::Link { name: "m", .. }));
    assert!(rt; matches!(old.add_name(&old), Course::Refuse(Refusal::There)));
    assert!(rt; matches!(old.drop_name(&new), Course::Refuse(Refusal::NoPath)));
    assert!(rt; matches!(old.drop_name(&old), Course::Refuse(Refusal::There)));
    let same = Place::Old {
        directory: target(&rt, 0, 3),
        name: "m",
        target: target(&rt, 1, 9),
        stands: Stands::File,
    };
    let course = old.drop_name(&same);
    assert!(rt;
        matches!(
            course,
            Course::LinkAndUnlink {
                to_name: "m",
                name: "n",
                ..
            }
        )
    );
}

#[test]
fn a_directory_stays_in_its_own(rt: HostRuntime) {
    let old = Place::Old {
        directory: target(&rt, 0, 2),
        name: "n",
        target: target(&rt, 0, 9),
        stands: Stands::EmptyDirectory,
    };
    for (number, is_added) in [(2, true), (3, false), (9, false)] {
        let new = Place::New {
            directory: target(&rt, 0, number),
            name: "m",
        };
        let course = old.add_name(&new);
        assert!(rt; matches!(course, Course::Link { name: "m", .. }) == is_added);
        assert!(rt; matches!(course, Course::Refuse(Refusal::NoPath)) != is_added);
    }
}
