// Days of 23 and 25 hours: which day a minute lies in and what the clock shows then, by a list of days, and which lists can be installed. A list is a
// slice of pairs, a day and its minutes (`Days` of crate history), past whose end all numbers are 0: every function answers on any slice.
//
//   specs/Stretches   what the functions ensure beside `Days`
//   proofs/Pairs      the pairs of a slice, from one turn to the next
//   proofs/Taking     lists that are taken: each return of the test
//   proofs/Places     the place of a minute: each return of the walk; it goes on with the minutes of its day
//   proofs/Labels     what the clock shows at a place, and how far it goes on by one

#![tactic(auto)]

ghost use Rattle.std.specs.Prelude.{◌≡◌, ◌+◌, ◌-◌, ◌^◌, ◌<◌, length, get_or, leb};
ghost use Rattle.history.specs.Days.{days_of, listable, days_taken, unlisted, place_of, shown_on, label_minute};
ghost use Rattle.history.specs.Reads.{label_of, clock_label};
ghost use Rattle.days.specs.Stretches.{least_after, Placed, TurnsAt, Stretches};

// Minutes of a day that is not listed, of a short one and of a long one.
pub const DAY: u64 = 1440;

const SHORT: u64 = 1380;

const LONG: u64 = 1500;

// The most days that may be listed.
pub const MOST: usize = 64;

// A cell's lower 32 bits are its minute, so that its platform is a multiple of this.
pub const PLATFORM: u64 = 1 << 32;

// The number at a place, 0 past the end.
// C lends a list as numbers, so it is read by number: the last pair may lack its minutes, which are 0 then.
pub fn number(list: &[u64], at: usize) -> u64
    ensures { result ≡ get_or list.now at 0 }
{
    list.get(at).copied().unwrap_or(0)
}

// How many days are listed. A last day without its minutes is one.
#[tactic(auto, using(crate::proofs::Pairs::days_count))]
pub fn count(list: &[u64]) -> usize
    ensures { result ≡ length (days_of list.now) }
{
    list.len().div_ceil(2)
}

// Whether a listed day may have so many minutes.
fn may_last(minutes: u64) -> bool
    ensures { result ≡ listable minutes }
{
    minutes == SHORT || minutes == LONG
}

// Whether `day` may stand behind the day before, if there is one. It compares and does not add: the last day may be 2^64 - 1.
fn rises(before: Option<u64>, day: u64) -> bool
    ensures { result ≡ leb (least_after before) day }
{
    before.is_none_or(|last| last < day)
}

// Whether the list can be installed: at most 64 days, strictly ascending, each of 1,380 or 1,500 minutes.
#[tactic(auto, using(crate::proofs::Taking::taking))]
pub fn takes(list: &[u64]) -> bool
    ensures { result ≡ days_taken (days_of list.now) }
{
    let count = count(list);
    if MOST < count {
        return false;
    }
    let mut before = None;
    for pair in list.chunks(2) {
        let day = number(pair, 0);
        if !rises(before, day) || !may_last(number(pair, 1)) {
            return false;
        }
        before = Some(day);
    }
    true
}

// A minute as a minute of a day, and how many that day has.
#[derive(Clone, Copy)]
pub struct Place {
    pub day: u64,
    pub minute: u64,
    pub length: u64,
}

impl Place {
    // The minute of 24 hours that the clock shows. Both passes of a long day's double hour show the same.
    #[tactic(auto, unfolding(history::specs::Days::shown_on))]
    pub fn shown(self) -> u64
        requires { self.minute < 2 ^ 32 }
        ensures { result ≡ shown_on self.length self.minute }
    {
        match self.length {
            SHORT if 120 <= self.minute => self.minute + 60,
            LONG if 180 <= self.minute => self.minute - 60,
            _ => self.minute,
        }
    }

    // The minute of the day up to which labels go on by one from this one on: the change of the clock, or the day's end.
    #[tactic(auto, unfolding(history::specs::Days::shown_on))]
    fn turn(self) -> u64
        requires { self.minute < self.length }
        ensures { TurnsAt self.length self.minute result }
    {
        match self.length {
            SHORT if self.minute < 120 => 120,
            LONG if self.minute < 180 => 180,
            _ => self.length,
        }
    }
}

// The place `left` minutes after the start of day `from`, where no day from there on is listed.
#[tactic(auto, unfolding(history::specs::Days::unlisted))]
fn after_all(from: u64, left: u64) -> Place
    requires { from + left < 2 ^ 64 }
    ensures { Placed (unlisted from left) result.day result.minute result.length }
{
    Place {
        day: from + left / DAY,
        minute: left % DAY,
        length: DAY,
    }
}

// The day of a minute, the minute in it, and the day's length. It goes from one listed day to the next and stops at the first that the minute does not
// reach: days are compared by division, so that no day number is too large. A step for each listed day.
#[tactic(auto, using(crate::proofs::Places::walking))]
pub fn place_of(list: &[u64], minute: u64) -> Place
    requires { minute < 2 ^ 32 }
    ensures { Placed (place_of (days_of list.now) minute) result.day result.minute result.length }
{
    let mut from = 0;
    let mut left = minute;
    for k in 0..count(list) {
        let day = number(list, 2 * k);
        let gap = day.saturating_sub(from);
        if left / DAY < gap {
            break;
        }
        let into = left - gap * DAY;
        let length = number(list, 2 * k + 1);
        if into < length {
            return Place {
                day,
                minute: into,
                length,
            };
        }
        from = day + 1;
        left = into - length;
    }
    after_all(from, left)
}

// What lies ahead of a minute: its day, the minute of 24 hours that the clock shows, and how many minutes from it on stay in that day and show one more
// each.
#[derive(Clone, Copy)]
pub struct Ahead {
    pub day: u64,
    pub label: u64,
    pub minutes: u64,
}

// The stretch from a minute on. The list is walked once.
#[tactic(auto, using(crate::proofs::Labels::labelling))]
pub fn stretch(list: &[u64], minute: u64) -> Ahead
    requires { minute < 2 ^ 32 }
    ensures { Stretches (days_of list.now) minute result.day result.label result.minutes }
{
    let place = place_of(list, minute);
    Ahead {
        day: place.day,
        label: place.shown(),
        minutes: place.turn() - place.minute,
    }
}

// Hours times 100 plus minutes.
#[tactic(auto, unfolding(history::specs::Reads::label_of))]
fn digits(minute: u64) -> u64
    requires { minute < 2 ^ 33 }
    ensures { result ≡ label_of minute }
{
    minute / 60 * 100 + minute % 60
}

// The clock label of a minute.
#[tactic(auto, using(crate::proofs::Labels::labelling))]
fn label(list: &[u64], minute: u64) -> u64
    requires { minute < 2 ^ 32 }
    ensures { result ≡ label_of (label_minute (days_of list.now) minute) }
{
    digits(place_of(list, minute).shown())
}

// The clock label of a cell. The minute comes first: 2^32 is no multiple of a day's minutes.
#[tactic(auto, unfolding(history::specs::Reads::clock_label))]
pub fn cell_label(list: &[u64], cell: u64) -> u64
    ensures { result ≡ clock_label (days_of list.now) cell }
{
    label(list, cell % PLATFORM)
}
