//! What the tests of runs change in the smallest bundle.

/// Each nurse works just the days on which the other one wants to work, and no row is cheaper while the
/// other's stays.
pub(crate) const CROSSED: [(&str, &str); 3] = [
    (
        "(0,1) (0,1) (0,1) (0,1) (0,1) (0,1) (0,1)",
        "(1,1) (1,1) (1,1) (1,1) (1,1) (1,1) (1,1)",
    ),
    (
        "SHIFT_OFF_REQUESTS = 0",
        "SHIFT_OFF_REQUESTS = 7\nAnn Any Mon\nAnn Any Tue\nAnn Any Wed\nBob Any Thu\n\
        Bob Any Fri\nBob Any Sat\nBob Any Sun",
    ),
    (
        "ASSIGNMENTS = 0",
        "ASSIGNMENTS = 7\nAnn Mon Early Nurse\nAnn Tue Early Nurse\nAnn Wed Early Nurse\n\
        Bob Thu Early Nurse\nBob Fri Early Nurse\nBob Sat Early Nurse\nBob Sun Early Nurse",
    ),
];
