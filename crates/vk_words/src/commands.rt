//! What the words ask for.
ghost use Rattle.std.specs.Prelude.{◌≡◌, ◌+◌, ◌<◌, ◌^◌, length, codes, unwrap_or, option_copied};
ghost use Rattle.std.specs.Prelude.{option_and_then, IfOk};
ghost use Rattle.vk_spec.specs.Reading.{Gives, or_fault};
ghost use Rattle.vk_base.specs.Stops.{fault_in};
ghost use Rattle.vk_words.specs.declared.faults.WordFault.TheVariants as fault;
ghost use Rattle.vk_words.specs.declared.faults.Opt.TheVariants as required;
ghost use Rattle.vk_words.specs.declared.options.OptionName.TheVariants as option;
ghost use Rattle.vk_words.specs.declared.commands.Command.TheVariants as the_command;
ghost use Rattle.vk_words.specs.WordViews.{word_view, words_view};
ghost use Rattle.vk_words.specs.Options.{command_named};
ghost use Rattle.vk_words.specs.Arguments.{agent_given};
ghost use Rattle.vk_words.specs.Arguments as the_arguments;
ghost use Rattle.vk_words.specs.Commands.{reads_words};
ghost use Rattle.vk_words.specs.Commands as the;

use crate::arguments::{
    Argument, agent_given, arguments_in, builder_given, features_given, is_given, number_given,
    path_given, paths_given, port_given, triplet_given,
};
use crate::faults::{Opt, WordFault};
use crate::options::{OptionName, Subcommand};
use std::alloc::Global;
use vk_base::{FeatureName, List, Memory, PortName, Text, TreePath, TripletName, Unread, Word};
use vk_model::{Builder, Project, Store};

/// A command with all that its options say; what no option says has its default.
#[derive(Drop)]
pub enum Command {
    /// Print the plan of a project.
    Plan(Project),
    /// Print the ABI text of a port, for a triplet or else for the target.
    Abi(Project, PortName, Option<TripletName>),
    /// Install the plan of a project.
    Install(Project, Store),
    /// Check the report in a file.
    Check(Project, TreePath),
    /// Plan a generated project of this size.
    SelfLoad(u32),
}

// A project may have so many bytes, unless another number is set.
fn max_bytes_in(arguments: &[Argument]) -> u64
    ensures { result ≡ the.max_bytes_in arguments.now }
{
    u64::from(number_given(arguments, OptionName::MaxBytes).unwrap_or(536_870_912))
}

// The working folder, unless another is named.
fn folder_in(alloc: Global, arguments: &[Argument]) -> Result<TreePath, Memory>
    ensures { IfOk result (λ p. p ≡ the.folder_in arguments.now) }
{
    match path_given(arguments, OptionName::Project) {
        Some(path) => Ok(path.clone()?),
        None => Ok(TreePath::new(alloc)),
    }
}

// The target, unless another triplet is named.
fn host_in(target: &TripletName, arguments: &[Argument]) -> Result<TripletName, Memory>
    ensures { IfOk result (λ n. n ≡ the.host_in target.now arguments.now) }
{
    match triplet_given(arguments, OptionName::HostTriplet) {
        Some(host) => Ok(host.clone()?),
        None => Ok(target.clone()?),
    }
}

fn builder_in(alloc: Global, arguments: &[Argument]) -> Result<Builder, Memory>
    ensures { IfOk result (λ b. b ≡ the.builder_in arguments.now) }
{
    match builder_given(arguments) {
        Some(builder) => Ok(builder.clone()?),
        None => Builder::recorded(alloc),
    }
}

// The folders that a project takes from the words.
#[derive(Drop)]
struct Folders {
    project: TreePath,
    overlay_ports: List<TreePath>,
    overlay_triplets: List<TreePath>,
}

fn folders_in(alloc: Global, arguments: &[Argument]) -> Result<Folders, Memory>
    ensures project { IfOk result (λ f. f.project ≡ the.folder_in arguments.now) }
    ensures ports { IfOk result (λ f. f.overlay_ports
        ≡ the_arguments.paths_given option.OverlayPorts arguments.now) }
    ensures triplets { IfOk result (λ f. f.overlay_triplets
        ≡ the_arguments.paths_given option.OverlayTriplets arguments.now) }
{
    Ok(Folders {
        project: folder_in(alloc, arguments)?,
        overlay_ports: paths_given(alloc, arguments, OptionName::OverlayPorts)?,
        overlay_triplets: paths_given(alloc, arguments, OptionName::OverlayTriplets)?,
    })
}

// What is built, and by whom.
#[derive(Drop)]
struct Build {
    target: TripletName,
    host: TripletName,
    features: List<FeatureName>,
    builder: Builder,
}

fn build_for(alloc: Global, target: &TripletName, arguments: &[Argument]) -> Result<Build, Memory>
    ensures target { IfOk result (λ b. b.target ≡ target.now) }
    ensures host { IfOk result (λ b. b.host ≡ the.host_in target.now arguments.now) }
    ensures features { IfOk result (λ b. b.features ≡ the_arguments.features_given arguments.now) }
    ensures builder { IfOk result (λ b. b.builder ≡ the.builder_in arguments.now) }
{
    Ok(Build {
        target: target.clone()?,
        host: host_in(target, arguments)?,
        features: features_given(alloc, arguments)?,
        builder: builder_in(alloc, arguments)?,
    })
}

// The project for a target.
fn project_for(
    alloc: Global,
    target: &TripletName,
    arguments: &[Argument],
) -> Result<Project, Memory>
    ensures { IfOk result (λ p. p ≡ the.project_for target.now arguments.now) }
{
    let build = build_for(alloc, target, arguments)?;
    let folders = folders_in(alloc, arguments)?;
    Ok(Project {
        folder: folders.project,
        target: build.target,
        host: build.host,
        features: build.features,
        defaults: !is_given(arguments, OptionName::NoDefaultFeatures),
        overlay_ports: folders.overlay_ports,
        overlay_triplets: folders.overlay_triplets,
        max_facts: number_given(arguments, OptionName::MaxFacts).unwrap_or(1_000_000),
        max_bytes: max_bytes_in(arguments),
        builder: build.builder,
    })
}

// What a required option was given.
fn needed<T>(given: Option<&T>, option: Opt) -> Result<&T, Unread<WordFault>>
    ensures { Gives (λ x. x.now) fault_in result
        (or_fault (fault.Lacks option) (option_copied given.entry)) }
{
    given.ok_or(Unread::Fault(WordFault::Lacks(option)))
}

// The target, which has to be named.
fn target_in(arguments: &[Argument]) -> Result<&TripletName, Unread<WordFault>>
    ensures { Gives (λ t. t.now) fault_in result (or_fault (fault.Lacks required.Triplet)
        (the_arguments.triplet_given option.Triplet arguments.now)) }
{
    needed(triplet_given(arguments, OptionName::Triplet), Opt::Triplet)
}

// The project, which needs a target.
#[tactic(auto, unfolding(crate::specs::Commands::project_in))]
fn project_in(alloc: Global, arguments: &[Argument]) -> Result<Project, Unread<WordFault>>
    ensures { Gives (λ p. p) fault_in result (the.project_in arguments.now) }
{
    let target = target_in(arguments)?;
    Ok(project_for(alloc, target, arguments)?)
}

// A folder in the project's, unless another is named.
fn installed_in(
    alloc: Global,
    folder: &TreePath,
    arguments: &[Argument],
) -> Result<TreePath, Memory>
    ensures { IfOk result (λ p. p ≡ the.installed_in folder.now arguments.now) }
{
    match path_given(arguments, OptionName::Installed) {
        Some(path) => Ok(path.clone()?),
        None => folder.child(alloc, "vcpkg_installed"),
    }
}

fn agent_in(alloc: Global, arguments: &[Argument]) -> Result<Text, Memory>
    ensures { IfOk result (λ t. t ≡ unwrap_or (agent_given arguments.now) (codes "agent")) }
{
    match agent_given(arguments) {
        Some(agent) => Ok(Text::from_str(alloc, agent.as_str())?),
        None => Ok(Text::from_str(alloc, "agent")?),
    }
}

// Where the packages of the project in a folder are installed, and kept in this cache.
fn store_for(
    alloc: Global,
    folder: &TreePath,
    cache: &TreePath,
    arguments: &[Argument],
) -> Result<Store, Memory>
    ensures { IfOk result (λ s. s ≡ the.store_for folder.now cache.now arguments.now) }
{
    Ok(Store {
        installed: installed_in(alloc, folder, arguments)?,
        cache: cache.clone()?,
        agent: agent_in(alloc, arguments)?,
        max_bytes: max_bytes_in(arguments),
    })
}

// The triplet of the port, if one is named.
fn port_triplet_in(arguments: &[Argument]) -> Result<Option<TripletName>, Memory>
    ensures { IfOk result (λ n. n ≡ the_arguments.triplet_given option.PortTriplet arguments.now) }
{
    match triplet_given(arguments, OptionName::PortTriplet) {
        Some(name) => Ok(Some(name.clone()?)),
        None => Ok(None),
    }
}

#[tactic(auto, unfolding(crate::specs::Commands::plan_in))]
fn plan_in(alloc: Global, arguments: &[Argument]) -> Result<Command, Unread<WordFault>>
    ensures { Gives (λ c. c) fault_in result (the.plan_in arguments.now) }
{
    let project = project_in(alloc, arguments)?;
    Ok(Command::Plan(project))
}

// To print the ABI text of this port in the project for a target.
fn abi_for(
    alloc: Global,
    target: &TripletName,
    port: &PortName,
    arguments: &[Argument],
) -> Result<Command, Memory>
    ensures { IfOk result (λ c. c ≡ the_command.Abi (the.project_for target.now arguments.now)
        port.now (the_arguments.triplet_given option.PortTriplet arguments.now)) }
{
    let port = port.clone()?;
    let triplet = port_triplet_in(arguments)?;
    Ok(Command::Abi(project_for(alloc, target, arguments)?, port, triplet))
}

#[tactic(auto, unfolding(crate::specs::Commands::abi_in, crate::specs::Commands::project_in))]
fn abi_in(alloc: Global, arguments: &[Argument]) -> Result<Command, Unread<WordFault>>
    ensures { Gives (λ c. c) fault_in result (the.abi_in arguments.now) }
{
    let target = target_in(arguments)?;
    let port = needed(port_given(arguments), Opt::Port)?;
    Ok(abi_for(alloc, target, port, arguments)?)
}

// To install the project for a target, and keep its packages in this cache.
fn install_for(
    alloc: Global,
    target: &TripletName,
    cache: &TreePath,
    arguments: &[Argument],
) -> Result<Command, Memory>
    ensures { IfOk result (λ c. c ≡ the_command.Install (the.project_for target.now arguments.now)
        (the.store_for (the.folder_in arguments.now) cache.now arguments.now)) }
{
    let project = project_for(alloc, target, arguments)?;
    match store_for(alloc, &project.folder, cache, arguments) {
        Ok(store) => Ok(Command::Install(project, store)),
        Err(e) => {
            drop(project);
            Err(e)
        }
    }
}

#[tactic(auto, unfolding(crate::specs::Commands::install_in, crate::specs::Commands::project_in))]
fn install_in(alloc: Global, arguments: &[Argument]) -> Result<Command, Unread<WordFault>>
    ensures { Gives (λ c. c) fault_in result (the.install_in arguments.now) }
{
    let target = target_in(arguments)?;
    let cache = needed(path_given(arguments, OptionName::Cache), Opt::Cache)?;
    Ok(install_for(alloc, target, cache, arguments)?)
}

// To check this report of the project for a target.
fn check_for(
    alloc: Global,
    target: &TripletName,
    report: &TreePath,
    arguments: &[Argument],
) -> Result<Command, Memory>
    ensures { IfOk result (λ c. c ≡ the_command.Check (the.project_for target.now arguments.now)
        report.now) }
{
    let report = report.clone()?;
    Ok(Command::Check(project_for(alloc, target, arguments)?, report))
}

#[tactic(auto, unfolding(crate::specs::Commands::check_in, crate::specs::Commands::project_in))]
fn check_in(alloc: Global, arguments: &[Argument]) -> Result<Command, Unread<WordFault>>
    ensures { Gives (λ c. c) fault_in result (the.check_in arguments.now) }
{
    let target = target_in(arguments)?;
    let report = needed(path_given(arguments, OptionName::Report), Opt::Report)?;
    Ok(check_for(alloc, target, report, arguments)?)
}

#[tactic(auto, unfolding(crate::specs::Commands::load_in))]
fn load_in(arguments: &[Argument]) -> Result<Command, Unread<WordFault>>
    ensures { Gives (λ c. c) fault_in result (the.load_in arguments.now) }
{
    match number_given(arguments, OptionName::Size) {
        Some(size) => Ok(Command::SelfLoad(size)),
        None => Err(Unread::Fault(WordFault::Lacks(Opt::Size))),
    }
}

fn command_from(
    alloc: Global,
    command: Subcommand,
    arguments: &[Argument],
) -> Result<Command, Unread<WordFault>>
    ensures { Gives (λ c. c) fault_in result (the.command_from command arguments.now) }
{
    match command {
        Subcommand::Plan => plan_in(alloc, arguments),
        Subcommand::Abi => abi_in(alloc, arguments),
        Subcommand::Install => install_in(alloc, arguments),
        Subcommand::Check => check_in(alloc, arguments),
        Subcommand::SelfLoad => load_in(arguments),
    }
}

// The command that the first word says.
fn command_in(word: &Word) -> Option<Subcommand>
    ensures { result ≡ option_and_then command_named (word_view word.now) }
{
    match word {
        Word::Text(text) => Subcommand::read(text.as_str()),
        Word::NotText => None,
    }
}

// What a command and options ask for.
#[tactic(auto, unfolding(crate::specs::Commands::command_line))]
fn command_line(alloc: Global, first: &Word, rest: &[Word]) -> Result<Command, Unread<WordFault>>
    requires { length rest.now + 1 < 2 ^ 32 }
    ensures { Gives (λ c. c) fault_in result
        (the.command_line (word_view first.now) (words_view rest.now)) }
{
    let command = command_in(first).ok_or(Unread::Fault(WordFault::Unknown(1)))?;
    let arguments = arguments_in(alloc, command, rest)?;
    command_from(alloc, command, arguments.as_slice())
}

/// What the words ask for. `NoCommand` comes exactly where there are none; `Unknown`, `NoValue`,
/// `Twice` and `BadValue` exactly for the first word that has a fault, of its faults the first in
/// this order; `Lacks` exactly where no word has a fault and a required option doesn't stand.
pub fn read_words(alloc: Global, words: &List<Word>) -> Result<Command, Unread<WordFault>>
    requires { length words.now < 2 ^ 32 }
    ensures { Gives (λ c. c) fault_in result (reads_words (words_view words.now)) }
{
    match words.as_slice().split_first() {
        Some((first, rest)) => command_line(alloc, first, rest),
        None => Err(Unread::Fault(WordFault::NoCommand)),
    }
}
