//! How many extensions searches make. A contract states how many at most, and a search that goes to the
//! tables at once keeps to that too. So each is held to the number that is stored for it, and a tenth more.

use crate::stored::{LAST_WEEK_EXTENSIONS, LIKE_EXTENSIONS, WARD_EXTENSIONS, YEAR_EXTENSIONS};
use crate::ward::WARD_TEXT;
use roster_best::{Workspace, best_row, most_search_extensions};
use roster_case::{Case, Held, Roster};
use roster_state::Meter;
use roster_text::{parse_bundle, tokens};
use roster_wards::{Kind, Size};
use std::alloc::Global;
use std::test::Fail;

/// A held roster, with the workspace and the meter of searches in it.
type Ready = (Held, Workspace, Meter);

/// The roster of a text.
fn ready(alloc: Global, source: &[u8]) -> Result<Ready, Fail> {
    let tokens = tokens(alloc, source)?;
    let bundle = parse_bundle(alloc, source, &tokens)?;
    let mut case = Case::from_bundle(alloc, &bundle, source)?;
    let roster = Roster::from_bundle(alloc, &case, &bundle, source)?;
    let meter = Meter::new(&mut case);
    let Ok(held) = Held::new(alloc, case, roster) else {
        return Err(Fail::new("not held"));
    };
    match Workspace::for_case(alloc, held.case()) {
        Ok(workspace) => Ok((held, workspace, meter)),
        Err(_) => Err(Fail::new("no workspace")),
    }
}

/// How many extensions a nurse's search makes from a week on. Her best row is put in.
fn search(
    held: &mut Held,
    nurse: usize,
    from: u16,
    workspace: &mut Workspace,
    meter: &mut Meter,
) -> Result<u64, Fail> {
    let case = held.case();
    let can_search = nurse < case.nurses() && workspace.fits(case);
    if !can_search || meter.room() < most_search_extensions(case, nurse) {
        return Err(Fail::new("no room"));
    }
    let before = meter.count();
    best_row(held, nurse, from, workspace, meter);
    held.replace_row(nurse, workspace.row());
    Ok(meter.count() - before)
}

/// How many extensions the searches for a text's nurses make from a week on, one after another, in two
/// rounds.
fn extensions_of<const N: usize>(
    alloc: Global,
    source: &[u8],
    from: u16,
) -> Result<[[u64; N]; 2], Fail> {
    let (mut held, mut workspace, mut meter) = ready(alloc, source)?;
    let mut extensions = [[0; N]; 2];
    for round in 0..2_usize {
        for nurse in 0..N {
            extensions[round][nurse] = search(&mut held, nurse, from, &mut workspace, &mut meter)?;
        }
    }
    Ok(extensions)
}

/// The round and the nurse of the first search that makes over a tenth more than is stored, if one does.
fn above<const N: usize>(
    extensions: &[[u64; N]; 2],
    stored: &[[u64; N]; 2],
) -> Option<(usize, usize)> {
    for round in 0..2_usize {
        for nurse in 0..N {
            let usual = stored[round][nurse];
            if extensions[round][nurse] > usual.saturating_add(usual / 10) {
                return Some((round, nurse));
            }
        }
    }
    None
}

#[test]
fn extensions_of_the_ward(rt: HostRuntime) -> Result<(), Fail> {
    let extensions = extensions_of::<12>(rt.alloc(), WARD_TEXT.as_bytes(), 0)?;
    let above = above(&extensions, &WARD_EXTENSIONS);
    assert!(rt; above.is_none(), "{above:?} WARD_EXTENSIONS {extensions:?}");
    Ok(())
}

/// Few states are reachable if most weeks are frozen, so the search goes to the tables at once.
#[test]
fn extensions_in_the_last_week(rt: HostRuntime) -> Result<(), Fail> {
    let extensions = extensions_of::<12>(rt.alloc(), WARD_TEXT.as_bytes(), 3)?;
    let above = above(&extensions, &LAST_WEEK_EXTENSIONS);
    assert!(rt;
        above.is_none(),
        "{above:?} LAST_WEEK_EXTENSIONS {extensions:?}"
    );
    Ok(())
}

#[test]
fn extensions_of_thirty_nurses(rt: HostRuntime) -> Result<(), Fail> {
    let size = Size {
        kind: Kind::Ward,
        nurses: 30,
        weeks: 4,
        seed: 1,
    };
    let text = size.bundle(rt.alloc(), 0)?;
    let extensions = extensions_of::<30>(rt.alloc(), &text, 0)?;
    let above = above(&extensions, &LIKE_EXTENSIONS);
    assert!(rt; above.is_none(), "{above:?} LIKE_EXTENSIONS {extensions:?}");
    Ok(())
}

#[test]
fn extensions_over_a_year(rt: HostRuntime) -> Result<(), Fail> {
    let size = Size {
        kind: Kind::Year,
        nurses: 12,
        weeks: 52,
        seed: 1,
    };
    let text = size.bundle(rt.alloc(), 0)?;
    let extensions = extensions_of::<12>(rt.alloc(), &text, 0)?;
    let above = above(&extensions, &YEAR_EXTENSIONS);
    assert!(rt; above.is_none(), "{above:?} YEAR_EXTENSIONS {extensions:?}");
    Ok(())
}
