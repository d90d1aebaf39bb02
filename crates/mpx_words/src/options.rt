//! The words of `exec`: options, each at most once, and then a file.
ghost use Rattle.std.specs.Prelude.{◌≡◌, ◌≤◌, List, ℕ, map, fold, string_bytes, length, MatchOption, ◌∷◌, ◌++◌, []};
ghost use Rattle.mpx_words.specs.Options.{Choice, Turns, Frames, Preserve, Bare, number_of, pick, fine, seen_after, seen_first, settings_of, IsExec, IsNoExec};

use crate::word::is_file;

/// What a run of an image is given.
#[derive(Clone, Copy, Debug, PartialEq, Eq)]
pub struct Settings {
    /// How many turns the guest has: 0 to 2^64-1, else 10,000,000.
    pub turns: u64,
    /// How many frames of 4,096 bytes its memory has: 16 to 524,288, else 65,536.
    pub frames: u32,
    /// Whether a near branch without the BND prefix keeps the bounds registers.
    pub preserve: bool,
    /// Whether no access and no branch of legacy code ends the run.
    pub bare: bool,
}

/// What options have set.
#[derive(Clone, Copy, Debug, PartialEq, Eq)]
pub struct Picked {
    pub turns: Option<u64>,
    pub frames: Option<u32>,
    pub preserve: bool,
    pub bare: bool,
}

/// What words before the file mean.
#[derive(Clone, Copy, Debug, PartialEq, Eq)]
pub enum Seen {
    Options(Picked),
    /// The next word is the number of `--turns`.
    AwaitsTurns(Picked),
    /// The next word is the number of `--frames`.
    AwaitsFrames(Picked),
    /// They are no options.
    Refused,
}

/// A number in decimal digits, with a plus before them or not, below 2^64.
pub fn number(word: &str) -> Option<u64>
    ensures { result ≡ number_of word.now }
{
    word.parse::<u64>().ok()
}

fn pick_turns(picked: Picked, word: &str) -> Option<Picked>
    ensures { result ≡ pick (Turns word.now) picked }
{
    match picked.turns {
        None => Some(Picked {
            turns: Some(number(word)?),
            ..picked
        }),
        Some(_) => None,
    }
}

fn pick_frames(picked: Picked, word: &str) -> Option<Picked>
    ensures { result ≡ pick (Frames word.now) picked }
{
    let frames = number(word)?;
    if picked.frames.is_none() && 16 <= frames && frames <= 524_288 {
        Some(Picked {
            frames: Some(frames as u32),
            ..picked
        })
    } else {
        None
    }
}

fn pick_preserve(picked: Picked) -> Option<Picked>
    ensures { result ≡ pick Preserve picked }
{
    if picked.preserve {
        None
    } else {
        Some(Picked {
            preserve: true,
            ..picked
        })
    }
}

fn pick_bare(picked: Picked) -> Option<Picked>
    ensures { result ≡ pick Bare picked }
{
    if picked.bare {
        None
    } else {
        Some(Picked {
            bare: true,
            ..picked
        })
    }
}

impl Seen {
    /// With what an option set, if it may stand.
    fn with(picked: Option<Picked>) -> Seen
        ensures { result ≡ fine picked }
    {
        match picked {
            Some(picked) => Seen::Options(picked),
            None => Seen::Refused,
        }
    }

    /// With one word more.
    fn after(self, word: &str) -> Seen
        ensures { result ≡ seen_after self word.now }
    {
        match self {
            Seen::Options(picked) => Seen::after_options(picked, word),
            Seen::AwaitsTurns(picked) => Seen::with(pick_turns(picked, word)),
            Seen::AwaitsFrames(picked) => Seen::with(pick_frames(picked, word)),
            Seen::Refused => Seen::Refused,
        }
    }

    /// An option's word after whole options.
    fn after_options(picked: Picked, word: &str) -> Seen
        ensures { result ≡ seen_first picked word.now }
    {
        if word == "--turns" {
            Seen::AwaitsTurns(picked)
        } else if word == "--frames" {
            Seen::AwaitsFrames(picked)
        } else if word == "--preserve" {
            Seen::with(pick_preserve(picked))
        } else if word == "--bare" {
            Seen::with(pick_bare(picked))
        } else {
            Seen::Refused
        }
    }
}

const NOTHING: Picked = Picked {
    turns: None,
    frames: None,
    preserve: false,
    bare: false,
};

/// What words before the file mean.
fn before_file(words: &[String]) -> Seen
    ensures { result ≡ fold seen_after (Seen.Options NOTHING) (map string_bytes words.now) }
{
    let mut seen = Seen::Options(NOTHING);
    for word in words {
        seen = seen.after(word.as_str());
    }
    seen
}

impl Picked {
    /// The settings, with their defaults.
    fn settings(&self) -> Settings
        ensures { result ≡ settings_of self.now }
    {
        Settings {
            turns: self.turns.unwrap_or(10_000_000),
            frames: self.frames.unwrap_or(65_536),
            preserve: self.preserve,
            bare: self.bare,
        }
    }
}

/// The first word, the words between, and the last.
#[derive(Clone, Copy)]
struct Outer<'a> {
    first: &'a str,
    between: &'a [String],
    last: &'a str,
}

fn ends(words: &[String]) -> Option<Outer<'_>>
    ensures { MatchOption result (length words.now ≤ 1) (λ e. map string_bytes words.now ≡ e.first.now ∷ (map string_bytes e.between.now ++ (e.last.now ∷ []))) }
{
    let (first, rest) = words.split_first()?;
    let (last, between) = rest.split_last()?;
    Some(Outer {
        first: first.as_str(),
        between,
        last: last.as_str(),
    })
}

/// The settings and the file of the command `exec`, if the words are one.
pub fn exec_words(words: &[String]) -> Option<(Settings, &str)>
    ensures means { MatchOption result (IsNoExec (map string_bytes words.now)) (λ r. IsExec (map string_bytes words.now) r.0 r.1.now) }
    ensures short { MatchOption result (Unit {0}) (λ r. length r.1.now ≤ 255) }
    ensures few { MatchOption result (Unit {0}) (λ r. r.0.frames ≤ 524288) }
{
    let outer = ends(words)?;
    if outer.first != "exec" || !is_file(outer.last) {
        return None;
    }
    match before_file(outer.between) {
        Seen::Options(picked) => Some((picked.settings(), outer.last)),
        _ => None,
    }
}
