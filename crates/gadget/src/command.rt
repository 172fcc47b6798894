// What the words ask for.
ghost use Rattle.std.specs.Prelude.{◌≡◌, ◌≤◌, ◌-◌, ◌^◌, IfSome, codes};
ghost use Rattle.std.specs.Str.{bytes_eq};
ghost use Rattle.std.specs.List.{list_all};
ghost use Rattle.store_io.specs.Names.{is_visible, is_name};
ghost use Rattle.gadget.specs.Asks.{IsCount, Means};
ghost use Rattle.gadget.specs.Commands.{asked, asked_of_two, asked_of_three, asked_of_four, asked_of_five, groups_as, is_visible_name, links_as, make_as, number_in, resume_on};

use store_io::Text;
use text_words::read_whole_number;

/// What the words ask for.
#[derive(Clone, Copy)]
pub enum Command<'a> {
    Nothing,
    Run {
        param: &'a Text,
        ranks: u32,
    },
    Resume {
        param: &'a Text,
        restart: &'a Text,
        ranks: u32,
    },
    Check {
        param: &'a Text,
    },
    Show {
        snapshot: &'a Text,
    },
    Make {
        count: u64,
        seed: u64,
        name: &'a Text,
    },
    Groups {
        snapshot: &'a Text,
        reach: u32,
        least: u32,
        name: &'a Text,
    },
    Links {
        first: &'a Text,
        second: &'a Text,
        name: &'a Text,
    },
}

/// A base of 200 bytes, `_` and 20 digits.
const LONGEST_NUMBERED: usize = 221;

/// A name to which `_restart` or the like can still be put.
const LONGEST_MADE: usize = 180;

const MOST_RANKS: u64 = 256;

const MOST_BODIES: u64 = 1_048_576;

/// The greatest length of a link.
const LONGEST_LINK: u64 = 1 << 30;

fn is_word(word: &Text, want: &[u8]) -> bool
    ensures { result ≡ bytes_eq word.now want.now }
{
    word.bytes() == want
}

fn all_visible(bytes: &[u8]) -> bool
    ensures { result ≡ list_all is_visible bytes.now }
{
    bytes.iter().all(|b| 33 <= *b && *b <= 126)
}

// Whether a word has 1 to `most` bytes, each a visible character of ASCII.
fn is_visible_name(word: &Text, most: usize) -> bool
    ensures { result ≡ is_visible_name most word.now }
{
    let bytes = word.bytes();
    let len = bytes.len();
    1 <= len && (len <= most && all_visible(bytes))
}

// The number that a word spells, where it lies in this range.
fn number_in(word: &Text, least: u64, most: u64) -> Option<u64>
    ensures value { result ≡ number_in least most word.now }
    ensures low { IfSome result (λ n. least ≤ n) }
    ensures high { IfSome result (λ n. n ≤ most) }
{
    match read_whole_number(word.bytes()) {
        Ok(n) => {
            if least <= n && n <= most {
                Some(n)
            } else {
                None
            }
        }
        Err(_) => None,
    }
}

// The number of ranks that a word spells.
fn ranks_in(word: &Text) -> Option<u32>
    ensures value { result ≡ number_in 1 256 word.now }
    ensures count { IfSome result IsCount }
{
    match number_in(word, 1, MOST_RANKS) {
        Some(ranks) => Some(ranks as u32),
        None => None,
    }
}

fn of_two<'a>(word: &Text, name: &'a Text) -> Command<'a>
    ensures { Means result (asked_of_two word.now name.now) }
{
    if is_word(word, b"check") {
        if name.is_name() {
            return Command::Check { param: name };
        }
        return Command::Nothing;
    }
    if !is_word(word, b"show") {
        return Command::Nothing;
    }
    if is_visible_name(name, LONGEST_NUMBERED) {
        return Command::Show { snapshot: name };
    }
    Command::Nothing
}

fn of_three<'a>(word: &Text, param: &'a Text, ranks: &Text) -> Command<'a>
    ensures { Means result (asked_of_three word.now param.now ranks.now) }
{
    if !is_word(word, b"run") {
        return Command::Nothing;
    }
    if !param.is_name() {
        return Command::Nothing;
    }
    match ranks_in(ranks) {
        Some(ranks) => Command::Run { param, ranks },
        None => Command::Nothing,
    }
}

// A run that goes on from a restart file, where there is a number of ranks.
fn resume_on<'a>(param: &'a Text, restart: &'a Text, ranks: &Text) -> Command<'a>
    ensures { Means result (resume_on param.now restart.now (number_in 1 256 ranks.now)) }
{
    match ranks_in(ranks) {
        Some(ranks) => Command::Resume {
            param,
            restart,
            ranks,
        },
        None => Command::Nothing,
    }
}

// Bodies that are made, where there are a number of them, a seed and a name.
fn make_as<'a>(count: &Text, seed: &Text, name: &'a Text) -> Command<'a>
    ensures { Means result (make_as (number_in 0 1048576 count.now) (number_in 0 (2 ^ 64 - 1) seed.now) name.now) }
{
    let Some(count) = number_in(count, 0, MOST_BODIES) else {
        return Command::Nothing;
    };
    let Some(seed) = number_in(seed, 0, u64::MAX) else {
        return Command::Nothing;
    };
    if is_visible_name(name, LONGEST_MADE) {
        return Command::Make { count, seed, name };
    }
    Command::Nothing
}

// The groups of a snapshot, where there are a length of links, a number of members and two names.
fn groups_as<'a>(snapshot: &'a Text, reach: &Text, least: &Text, name: &'a Text) -> Command<'a>
    ensures { Means result (groups_as snapshot.now (number_in 0 1073741824 reach.now) (number_in 1 1048576 least.now) name.now) }
{
    let Some(reach) = number_in(reach, 0, LONGEST_LINK) else {
        return Command::Nothing;
    };
    let Some(least) = number_in(least, 1, MOST_BODIES) else {
        return Command::Nothing;
    };
    if !is_visible_name(snapshot, LONGEST_NUMBERED) {
        return Command::Nothing;
    }
    if !name.is_name() {
        return Command::Nothing;
    }
    Command::Groups {
        snapshot,
        reach: reach as u32,
        least: least as u32,
        name,
    }
}

// The links of two catalogues, where there are three names.
fn links_as<'a>(first: &'a Text, second: &'a Text, name: &'a Text) -> Command<'a>
    ensures { Means result (links_as first.now second.now name.now) }
{
    if !first.is_name() {
        return Command::Nothing;
    }
    if !second.is_name() {
        return Command::Nothing;
    }
    if !name.is_name() {
        return Command::Nothing;
    }
    Command::Links {
        first,
        second,
        name,
    }
}

fn of_four<'a>(word: &Text, a: &'a Text, b: &'a Text, c: &'a Text) -> Command<'a>
    ensures { Means result (asked_of_four word.now a.now b.now c.now) }
{
    if is_word(word, b"resume") {
        if a.is_name() && is_visible_name(b, LONGEST_NUMBERED) {
            return resume_on(a, b, c);
        }
        return Command::Nothing;
    }
    if is_word(word, b"make") {
        return make_as(a, b, c);
    }
    if is_word(word, b"links") {
        return links_as(a, b, c);
    }
    Command::Nothing
}

fn of_five<'a>(word: &Text, a: &'a Text, b: &'a Text, c: &'a Text, d: &'a Text) -> Command<'a>
    ensures { Means result (asked_of_five word.now a.now b.now c.now d.now) }
{
    if is_word(word, b"groups") {
        return groups_as(a, b, c, d);
    }
    Command::Nothing
}

/// The command that the words name.
pub fn command_of<'a>(words: &'a [Text]) -> Command<'a>
    ensures { Means result (asked words.now) }
{
    match words {
        [word, name] => of_two(word, name),
        [word, param, ranks] => of_three(word, param, ranks),
        [word, a, b, c] => of_four(word, a, b, c),
        [word, a, b, c, d] => of_five(word, a, b, c, d),
        _ => Command::Nothing,
    }
}
