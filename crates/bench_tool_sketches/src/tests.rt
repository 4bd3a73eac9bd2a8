// What no contract tells of a place and its lists, by public names alone.
use crate::kept_lists::KeptLists;
use crate::line::Line;
use crate::slots::Bench;
use crate::usage::Command;
use service::Service;
use std::test::Fail;

// No bytes are no store: a sketch that every call refuses.
fn any_service() -> Service {
    service::load(&mut [], &[]).service
}

#[test]
fn holds_anew(rt: HostRuntime) -> Result<(), Fail> {
    let mut bench = Bench::new(rt.alloc())?;
    let line = Line::new(b"load b file");
    assert!(rt; bench.kept_of(Command::Load, line).is_err());
    let place = bench.place_of(Command::Load, line);
    assert!(rt; place.is_ok());
    if let Ok(mut place) = place {
        place.hold(any_service(), 3);
        assert_eq!(rt; place.room(7).len(), 7);
        place.hold(any_service(), 5);
        assert_eq!(rt; place.into_room(2000000).len(), 1048576);
    }
    let kept = bench.kept_of(Command::Load, line);
    assert!(rt; kept.is_ok());
    if let Ok(kept) = kept {
        assert_eq!(rt; kept.slot.size, 5);
        assert_eq!(rt; kept.grid.len(), 5);
    }
    Ok(())
}

#[test]
fn swaps_all_with_an_empty_place(rt: HostRuntime) -> Result<(), Fail> {
    let mut ours = Bench::new(rt.alloc())?;
    let mut theirs = Bench::new(rt.alloc())?;
    let line = Line::new(b"load b file");
    let (Ok(mut our), Ok(mut their)) = (
        ours.place_of(Command::Load, line),
        theirs.place_of(Command::Load, line),
    ) else {
        assert!(rt; false);
        return Ok(());
    };
    our.hold(any_service(), 5);
    our.room(2)[..].fill(7);
    our.swap(&mut their);
    assert!(rt; ours.kept_of(Command::Load, line).is_err());
    let kept = theirs.kept_of(Command::Load, line);
    assert!(rt; kept.is_ok());
    if let Ok(kept) = kept {
        assert_eq!(rt; &kept.grid[..], [7, 7, 0, 0, 0].as_slice());
    }
    Ok(())
}

#[test]
fn keeps_the_lists_of_each(rt: HostRuntime) {
    let mut lists = KeptLists::new();
    for (limit, line) in [(1, b"ask a"), (2, b"ask b"), (3, b"ask c"), (4, b"ask d")] {
        let kept = lists.of(Line::new(line));
        assert_eq!(rt; kept.limits[63], 0);
        kept.columns[8191] = 7;
        kept.limits[63] = limit;
    }
    for (limit, line) in [(1, b"ask a"), (2, b"ask b"), (3, b"ask c"), (4, b"ask d")] {
        let kept = lists.of(Line::new(line));
        assert_eq!(rt; kept.columns[8191], 7);
        assert_eq!(rt; kept.limits[63], limit);
    }
}
