//! Days that were looked up by hand.
use crate::checks::check;
use crate::sample::moment;
use std::process::Abort;
use sv_logs::{Day, date_of};

/// The moment in milliseconds, and its year, month and day.
static DAYS: [(u64, u16, u8, u8); 12] = [
    (0, 1970, 1, 1),
    (86_399_999, 1970, 1, 1),
    (86_400_000, 1970, 1, 2),
    (68_169_600_000, 1972, 2, 29),
    (951_868_799_999, 2000, 2, 29),
    (951_868_800_000, 2000, 3, 1),
    (1_704_067_199_999, 2023, 12, 31),
    (1_704_067_200_000, 2024, 1, 1),
    (1_709_251_199_999, 2024, 2, 29),
    (4_107_542_399_999, 2100, 2, 28),
    (4_107_542_400_000, 2100, 3, 1),
    (253_000_000_000_000, 9987, 4, 2),
];

#[test]
fn days_of_moments(rt: HostRuntime) {
    for &(moment, year, month, day) in &DAYS {
        is_day(&rt, moment, Day { year, month, day });
    }
}

fn is_day(rt: &impl Abort, milliseconds: u64, day: Day) {
    check(rt, date_of(moment(rt, milliseconds)) == day);
}
