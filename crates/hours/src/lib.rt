// Station hours: which cells a calendar opens, and which calendars can be installed. A calendar is a slice of numbers (`Hours` of crate history), past
// whose end all numbers are 0: every function answers on any slice.
//
//   specs/Reach      what the functions ensure beside `Hours`
//   proofs/Rows      the numbers of a calendar as lists, from one turn to the next
//   proofs/Taking    taken calendars: what each test comes to
//   proofs/Opening   open cells: each return of the reads

#![tactic(auto)]

ghost use Rattle.std.specs.Prelude.{◌≡◌, ◌+◌, ◌-◌, ◌≤◌, ◌<◌, ltb, get_or};
ghost use Rattle.std.specs.List.{list_all, range_with_len};
ghost use Rattle.history.specs.Days.{days_of};
ghost use Rattle.history.specs.Hours.{calendar_of, hours_at, window_at, weekday_at, special_at, special_place, calendar_width, most_windows, most_special, covers, windows_of, closed_cell, window_taken, hours_taken, special_taken, calendar_taken};
ghost use Rattle.hours.specs.Reach.{until_of, SpecialStands, Reaches, Passes};

const WEEKDAYS: u64 = 7;

// The most windows of a day, and the most special days.
const WINDOWS: u64 = 8;

const SPECIAL: u64 = 64;

// A count and eight pairs; the count of special days, the first of them, and the width of each.
const HOURS_WIDTH: usize = 17;

const SPECIAL_COUNT: usize = 119;

const SPECIAL_FIRST: usize = 120;

const SPECIAL_WIDTH: usize = 18;

// [from, to), in minutes of the day.
#[derive(Clone, Copy)]
struct Window {
    from: u64,
    to: u64,
}

impl Window {
    ghost use Rattle.hours.specs.Reach.{the_window};

    fn covers(self, minute: u64) -> bool
        ensures { result ≡ covers minute (the_window self) }
    {
        self.from <= minute && minute < self.to
    }

    // Whether it can be installed.
    fn taken(self) -> bool
        ensures { result ≡ window_taken (the_window self) }
    {
        self.from < self.to && self.to <= days::DAY
    }
}

// The hours of a day: where they stand in a calendar.
#[derive(Clone, Copy)]
struct Hours<'a> {
    calendar: &'a [u64],
    at: usize,
    ghost inside: { at ≤ calendar_width },
}

impl Hours<'_> {
    ghost use Rattle.hours.specs.Reach.{the_window};

    // A call, as a closure cannot say by itself that the hours of the `k` that it is handed stand inside.
    fn new(calendar: &[u64], at: usize) -> Hours<'_>
        requires { at ≤ calendar_width }
        ensures calendar { result.calendar.now ≡ calendar.now }
        ensures at { result.at ≡ at }
    {
        Hours { calendar, at }
    }

    // How many windows they say that they have.
    fn stated(&self) -> u64
        ensures { result ≡ get_or self.now.calendar.now self.now.at 0 }
    {
        days::number(self.calendar, self.at)
    }

    fn window(&self, j: usize) -> Window
        requires { j < most_windows }
        ensures { the_window result ≡ window_at self.now.calendar.now self.now.at j }
    {
        Window {
            from: days::number(self.calendar, self.at + 1 + 2 * j),
            to: days::number(self.calendar, self.at + 2 + 2 * j),
        }
    }

    // The end of the first window that covers the minute of the day, if one does.
    fn until(&self, minute: u64) -> Option<u64>
        ensures { result ≡ until_of minute (hours_at self.now.calendar.now self.now.at).windows }
    {
        let count = self.stated().min(WINDOWS) as usize;
        (0..count)
            .map(|j| self.window(j))
            .find(|window| window.covers(minute))
            .map(|window| window.to)
    }

    // Whether the first `count` windows can be installed.
    fn takes_windows(&self, count: usize) -> bool
        requires { count ≤ most_windows }
        ensures { result ≡ list_all (λ j. window_taken (window_at self.now.calendar.now self.now.at j)) (range_with_len 0 count) }
    {
        (0..count).all(|j| self.window(j).taken())
    }

    // Whether they can be installed.
    #[tactic(auto, using(crate::proofs::Taking::hours_many, crate::proofs::Taking::hours_few))]
    fn taken(&self) -> bool
        ensures { result ≡ hours_taken (hours_at self.now.calendar.now self.now.at) }
    {
        let stated = self.stated();
        stated <= WINDOWS && self.takes_windows(stated as usize)
    }
}

// The number of special day `k`.
fn special_day(calendar: &[u64], k: usize) -> u64
    requires { k < most_special }
    ensures { result ≡ (special_at calendar.now k).day }
{
    days::number(calendar, SPECIAL_FIRST + SPECIAL_WIDTH * k)
}

// Where the hours of special day `k` stand.
fn special_place(k: usize) -> usize
    requires { k < most_special }
    ensures { result ≡ special_place k + 1 }
{
    SPECIAL_FIRST + SPECIAL_WIDTH * k + 1
}

// Where the hours of the special day of this number stand, if there is such a day. At most 64 days are looked at.
// One by one and not by halves: on a slice that install does not take they need not ascend.
fn special_hours(calendar: &[u64], day: u64) -> Option<usize>
    ensures { SpecialStands calendar.now day result }
{
    let count = days::number(calendar, SPECIAL_COUNT).min(SPECIAL) as usize;
    (0..count)
        .find(|&k| special_day(calendar, k) == day)
        .map(|k| special_place(k))
}

// The end of the first window that covers the minute of the day, of all that count on a day, if one does.
#[tactic(auto, using(crate::proofs::Opening::until_on_special, crate::proofs::Opening::until_on_weekday))]
fn until_on(calendar: &[u64], day: u64, minute: u64) -> Option<u64>
    ensures { result ≡ until_of minute (windows_of (calendar_of calendar.now) day) }
{
    let at = special_hours(calendar, day).unwrap_or(HOURS_WIDTH * (day % WEEKDAYS) as usize);
    Hours::new(calendar, at).until(minute)
}

// How many cells from this one on a window keeps open, up to the end of its day or platform, or to where the label jumps; none where the cell is closed.
#[tactic(auto, using(crate::proofs::Opening::reach_closed, crate::proofs::Opening::reach_open, crate::proofs::Opening::until_ahead))]
fn reach(calendar: &[u64], days: &[u64], cell: u64) -> Option<u64>
    ensures { Reaches (days_of days.now) (calendar_of calendar.now) cell result }
{
    let minute = cell % days::PLATFORM;
    let ahead = days::stretch(days, minute);
    let until = until_on(calendar, ahead.day, ahead.label)?;
    Some(
        (until - ahead.label)
            .min(ahead.minutes)
            .min(days::PLATFORM - minute),
    )
}

// How many cells from this one on pass: one whose byte is 0, or as many as a window reaches; none where the byte is refused.
fn passing(calendar: &[u64], days: &[u64], cell: u64, byte: u8) -> Option<u64>
    ensures { Passes (days_of days.now) (calendar_of calendar.now) cell byte result }
{
    if byte == 0 {
        return Some(1);
    }
    reach(calendar, days, cell)
}

// Whether some byte that is not 0 falls on a closed cell, where byte i is that of cell first + i. Day and label go by the list of days. The calendar is
// looked up once for each window of a day, and the bytes in it are not read.
// No `for` goes over the bytes: a turn takes as many as a window reaches.
#[tactic(auto, using(crate::proofs::Opening::closed_start, crate::proofs::Opening::closed_none))]
pub fn closed_cell(calendar: &[u64], days: &[u64], first: u64, bytes: &[u8]) -> bool
    ensures { result ≡ closed_cell (days_of days.now) (calendar_of calendar.now) first bytes.now }
{
    let mut i = 0;
    while i < bytes.len() {
        let cell = first % days::PLATFORM + i as u64 % days::PLATFORM;
        let Some(passed) = passing(calendar, days, cell, bytes[i]) else {
            return true;
        };
        i += passed.min((bytes.len() - i) as u64) as usize;
    }
    false
}

// Whether the hours of all weekdays can be installed.
fn takes_week(calendar: &[u64]) -> bool
    ensures { result ≡ list_all (λ k. hours_taken (weekday_at calendar.now k)) (range_with_len 0 7) }
{
    (0..WEEKDAYS as usize).all(|k| Hours::new(calendar, HOURS_WIDTH * k).taken())
}

// Whether the hours of `count` special days can be installed.
fn takes_special(calendar: &[u64], count: usize) -> bool
    requires { count ≤ most_special }
    ensures { result ≡ list_all (λ k. special_taken (special_at calendar.now k)) (range_with_len 0 count) }
{
    (0..count).all(|k| Hours::new(calendar, special_place(k)).taken())
}

// Whether `count` special days ascend.
fn ascending(calendar: &[u64], count: usize) -> bool
    requires { count ≤ most_special }
    ensures { result ≡ list_all (λ k. ltb (special_at calendar.now (k - 1)).day (special_at calendar.now k).day) (range_with_len 1 (count - 1)) }
{
    (1..count).all(|k| special_day(calendar, k - 1) < special_day(calendar, k))
}

// Whether the calendar can be installed. Linear in the windows; nothing is read past the 64th special day.
#[tactic(auto, using(crate::proofs::Taking::calendar_many, crate::proofs::Taking::calendar_few))]
pub fn takes(calendar: &[u64]) -> bool
    ensures { result ≡ calendar_taken (calendar_of calendar.now) }
{
    let stated = days::number(calendar, SPECIAL_COUNT);
    stated <= SPECIAL
        && takes_week(calendar)
        && takes_special(calendar, stated as usize)
        && ascending(calendar, stated as usize)
}
