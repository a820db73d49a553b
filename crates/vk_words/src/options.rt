//! The commands, and the table of their options.
ghost use Rattle.std.specs.Prelude.{◌≡◌, bytes_eq, find};
ghost use Rattle.std.specs.Option.{option_copied};
ghost use Rattle.vk_words.specs.Options as the;

/// A command, by its first word.
#[derive(Clone, Copy, PartialEq, Eq)]
pub(crate) enum Subcommand {
    Plan,
    Abi,
    Install,
    Check,
    SelfLoad,
}

/// Which commands have an option.
#[derive(Clone, Copy, PartialEq, Eq)]
pub(crate) enum Scope {
    /// All that read a project: every command but `self-load`.
    Projects,
    /// `abi` and `install`.
    Builds,
    Abi,
    Install,
    Check,
    SelfLoad,
}

/// What an option takes after its `=`.
#[derive(Clone, Copy, PartialEq, Eq)]
pub(crate) enum Takes {
    /// Nothing, and no `=`: it is a flag.
    Nothing,
    Triplet,
    Port,
    Feature,
    Path,
    /// A number from 1 to this one.
    Number(u32),
    Agent,
    Builder,
}

/// An option of the command line.
#[derive(Clone, Copy, PartialEq, Eq)]
pub(crate) enum OptionName {
    Triplet,
    HostTriplet,
    Project,
    Feature,
    NoDefaultFeatures,
    OverlayPorts,
    OverlayTriplets,
    MaxFacts,
    MaxBytes,
    Builder,
    Port,
    PortTriplet,
    Installed,
    Cache,
    Agent,
    Report,
    Size,
}

/// A row of the table of options.
#[derive(Clone, Copy)]
pub(crate) struct Rule {
    pub(crate) scope: Scope,
    pub(crate) takes: Takes,
    /// Whether it may stand more than once.
    pub(crate) repeats: bool,
}

const COMMANDS: [Subcommand; 5] = [
    Subcommand::Plan,
    Subcommand::Abi,
    Subcommand::Install,
    Subcommand::Check,
    Subcommand::SelfLoad,
];

const OPTIONS: [OptionName; 17] = [
    OptionName::Triplet,
    OptionName::HostTriplet,
    OptionName::Project,
    OptionName::Feature,
    OptionName::NoDefaultFeatures,
    OptionName::OverlayPorts,
    OptionName::OverlayTriplets,
    OptionName::MaxFacts,
    OptionName::MaxBytes,
    OptionName::Builder,
    OptionName::Port,
    OptionName::PortTriplet,
    OptionName::Installed,
    OptionName::Cache,
    OptionName::Agent,
    OptionName::Report,
    OptionName::Size,
];

impl Subcommand {
    // The word that says it.
    fn name(self) -> &'static str
        ensures { result.now ≡ the.command_name self }
    {
        match self {
            Subcommand::Plan => "plan",
            Subcommand::Abi => "abi",
            Subcommand::Install => "install",
            Subcommand::Check => "check",
            Subcommand::SelfLoad => "self-load",
        }
    }

    fn is_named(self, name: &str) -> bool
        ensures { result ≡ bytes_eq (the.command_name self) name.now }
    {
        self.name() == name
    }

    /// The command of this name.
    pub(crate) fn read(name: &str) -> Option<Subcommand>
        ensures { result ≡ the.command_named name.now }
    {
        first_command(&COMMANDS, name).copied()
    }
}

// The first of these with this name.
fn first_command<'a>(commands: &'a [Subcommand], name: &str) -> Option<&'a Subcommand>
    ensures { option_copied result
        ≡ find (λ c. bytes_eq (the.command_name c) name.now) commands.now }
{
    commands.iter().find(|command| command.is_named(name))
}

impl Scope {
    // Whether a command has the options of this scope.
    fn has(self, command: Subcommand) -> bool
        ensures { result ≡ the.has self command }
    {
        match self {
            Scope::Projects => command != Subcommand::SelfLoad,
            Scope::Builds => command == Subcommand::Abi || command == Subcommand::Install,
            Scope::Abi => command == Subcommand::Abi,
            Scope::Install => command == Subcommand::Install,
            Scope::Check => command == Subcommand::Check,
            Scope::SelfLoad => command == Subcommand::SelfLoad,
        }
    }
}

// An option that stands once at most.
fn once(scope: Scope, takes: Takes) -> Rule
    ensures { result ≡ the.once scope takes }
{
    Rule {
        scope,
        takes,
        repeats: false,
    }
}

// An option that may repeat.
fn many(scope: Scope, takes: Takes) -> Rule
    ensures { result ≡ the.many scope takes }
{
    Rule {
        scope,
        takes,
        repeats: true,
    }
}

impl OptionName {
    /// The name, as it is written.
    pub(crate) fn name(self) -> &'static str
        ensures { result.now ≡ the.option_name self }
    {
        match self {
            OptionName::Triplet => "--triplet",
            OptionName::HostTriplet => "--host-triplet",
            OptionName::Project => "--project",
            OptionName::Feature => "--feature",
            OptionName::NoDefaultFeatures => "--no-default-features",
            OptionName::OverlayPorts => "--overlay-ports",
            OptionName::OverlayTriplets => "--overlay-triplets",
            OptionName::MaxFacts => "--max-facts",
            OptionName::MaxBytes => "--max-bytes",
            OptionName::Builder => "--builder",
            OptionName::Port => "--port",
            OptionName::PortTriplet => "--port-triplet",
            OptionName::Installed => "--installed",
            OptionName::Cache => "--cache",
            OptionName::Agent => "--agent",
            OptionName::Report => "--report",
            OptionName::Size => "--size",
        }
    }

    /// Its row in the table.
    pub(crate) fn rule(self) -> Rule
        ensures { result ≡ the.rule_of self }
    {
        match self {
            OptionName::Triplet => once(Scope::Projects, Takes::Triplet),
            OptionName::HostTriplet => once(Scope::Projects, Takes::Triplet),
            OptionName::Project => once(Scope::Projects, Takes::Path),
            OptionName::Feature => many(Scope::Projects, Takes::Feature),
            OptionName::NoDefaultFeatures => once(Scope::Projects, Takes::Nothing),
            OptionName::OverlayPorts => many(Scope::Projects, Takes::Path),
            OptionName::OverlayTriplets => many(Scope::Projects, Takes::Path),
            OptionName::MaxFacts => once(Scope::Projects, Takes::Number(2_000_000)),
            OptionName::MaxBytes => once(Scope::Builds, Takes::Number(536_870_912)),
            OptionName::Builder => once(Scope::Builds, Takes::Builder),
            OptionName::Port => once(Scope::Abi, Takes::Port),
            OptionName::PortTriplet => once(Scope::Abi, Takes::Triplet),
            OptionName::Installed => once(Scope::Install, Takes::Path),
            OptionName::Cache => once(Scope::Install, Takes::Path),
            OptionName::Agent => once(Scope::Install, Takes::Agent),
            OptionName::Report => once(Scope::Check, Takes::Path),
            OptionName::Size => once(Scope::SelfLoad, Takes::Number(2_000)),
        }
    }

    // Whether a command has this option, under this name.
    fn is_named(self, command: Subcommand, name: &str) -> bool
        ensures { result ≡ the.is_named command name.now self }
    {
        self.rule().scope.has(command) && self.name() == name
    }

    /// The option of a command that has this name.
    pub(crate) fn read(command: Subcommand, name: &str) -> Option<OptionName>
        ensures { result ≡ the.option_named command name.now }
    {
        first_option(&OPTIONS, command, name).copied()
    }
}

// The first of these that the command has under this name.
fn first_option<'a>(
    options: &'a [OptionName],
    command: Subcommand,
    name: &str,
) -> Option<&'a OptionName>
    ensures { option_copied result ≡ find (the.is_named command name.now) options.now }
{
    options.iter().find(|option| option.is_named(command, name))
}
