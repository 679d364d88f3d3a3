//! The table of commands and that of flags.
ghost use Rattle.std.specs.Prelude.{◌≡◌};
ghost use Rattle.command_words.specs.Usages.{flag_word, limits_of};

/// The commands. A new one is a case of [`Kind::usage`], and one of the command that its parts make.
#[derive(Clone, Copy)]
pub enum Kind {
    Check,
    Code,
    Route,
    Settle,
    Stable,
    Run,
    Trace,
    Flood,
    Distance,
    Verify,
    Hops,
    Gadget,
    Demo,
}

/// How a command is used: its word, how many arguments it takes at least and at most, and which flags it has.
#[derive(Clone, Copy)]
pub struct Usage {
    pub word: &'static str,
    pub least: usize,
    pub most: usize,
    pub flags: &'static [Flag],
}

// The flags of the commands that run nodes.
const RUN_FLAGS: [Flag; 2] = [
    Flag::Number(NumberFlag::Workers),
    Flag::Number(NumberFlag::Turns),
];

impl Usage {
    ghost use Rattle.command_words.specs.Usages.{pure_usage};

    // The usage of the command of this word, with so many arguments at least and at most, and these flags.
    fn of(word: &'static str, least: usize, most: usize, flags: &'static [Flag]) -> Usage
        ensures { pure_usage result ≡ record { word = word.now; least = least; most = most; flags = flags.now } }
    {
        Usage {
            word,
            least,
            most,
            flags,
        }
    }
}

impl Kind {
    ghost use Rattle.std.specs.Prelude.{find};
    ghost use Rattle.command_words.specs.Usages.{has_word, kinds, pure_usage, usage_of};

    // All commands.
    const ALL: [Kind; 13] = [
        Kind::Check,
        Kind::Code,
        Kind::Route,
        Kind::Settle,
        Kind::Stable,
        Kind::Run,
        Kind::Trace,
        Kind::Flood,
        Kind::Distance,
        Kind::Verify,
        Kind::Hops,
        Kind::Gadget,
        Kind::Demo,
    ];

    /// How the command is used.
    pub fn usage(self) -> Usage
        ensures { pure_usage result ≡ usage_of self }
    {
        match self {
            Kind::Check => Usage::of("check", 1, 2, &[Flag::Require]),
            Kind::Code => Usage::of("code", 1, 2, &[]),
            Kind::Route => Usage::of("route", 2, 2, &[Flag::Number(NumberFlag::Workers)]),
            Kind::Settle => Usage::of("settle", 2, 2, &[]),
            Kind::Stable => Usage::of("stable", 2, 2, &[]),
            Kind::Run => Usage::of("run", 2, 2, &RUN_FLAGS),
            Kind::Trace => Usage::of("trace", 2, 2, &RUN_FLAGS),
            Kind::Flood => Usage::of("flood", 2, 2, &RUN_FLAGS),
            Kind::Distance => Usage::of("distance", 2, 2, &RUN_FLAGS),
            Kind::Verify => Usage::of("verify", 3, 3, &[]),
            Kind::Hops => Usage::of("hops", 2, 2, &[]),
            Kind::Gadget => Usage::of("gadget", 1, 1, &[]),
            Kind::Demo => Usage::of("demo", 2, 2, &[]),
        }
    }

    /// The command of this word.
    pub fn named(word: &str) -> Option<Kind>
        ensures { result ≡ find (has_word word.now) kinds }
    {
        Kind::ALL
            .iter()
            .copied()
            .find(|kind| kind.usage().word == word)
    }
}

/// A flag.
#[derive(Clone, Copy)]
pub enum Flag {
    /// One whose value is a number.
    Number(NumberFlag),
    /// `--require`, whose value is a list of properties.
    Require,
}

impl Flag {
    /// The word that gives it.
    pub fn word(self) -> &'static str
        ensures { result.now ≡ flag_word self }
    {
        match self {
            Flag::Number(NumberFlag::Workers) => "--workers",
            Flag::Number(NumberFlag::Turns) => "--turns",
            Flag::Require => "--require",
        }
    }
}

/// A flag whose value is a number.
#[derive(Clone, Copy)]
pub enum NumberFlag {
    /// How many workers find routes, or run nodes.
    Workers,
    /// How many deliveries may be made.
    Turns,
}

/// What the number of a flag may be: the least and the greatest, and the one where the flag isn't given.
#[derive(Clone, Copy)]
pub struct Limits {
    pub least: u64,
    pub greatest: u64,
    pub default: u64,
}

impl NumberFlag {
    /// What its number may be.
    pub fn limits(self) -> Limits
        ensures { result ≡ limits_of self }
    {
        match self {
            NumberFlag::Workers => Limits {
                least: 1,
                greatest: 16,
                default: 4,
            },
            NumberFlag::Turns => Limits {
                least: 0,
                greatest: 1_000_000,
                default: 100_000,
            },
        }
    }
}
