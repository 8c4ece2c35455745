//! What the lines do, in their order.
ghost use Rattle.std.specs.Prelude.{◌≡◌, ◌++◌, ◌∷◌, [], IfOk};
ghost use Rattle.std.specs.Option.{option_map};
ghost use Rattle.std.specs.List.{list_any};
ghost use Rattle.chpw_rules.specs.Fitting.{is_same_principal};
ghost use Rattle.chpw_commands.specs.declared.drill.line.Line.TheVariants.{Rule as RuleLine, Principal as PrincipalLine, Open as OpenLine};
ghost use Rattle.chpw_commands.specs.Drilled.{turn};
ghost use Rattle.chpw_commands.specs.Stages.{Stage as StageModel, Machine, blank, with_rule};
ghost use Rattle.chpw_commands.specs.Stages.{with_principal, takes_principal, turn_first};
ghost use Rattle.chpw_commands.specs.Stages.{turn_named, turn_listed, turn_running, turn_line};
ghost use Rattle.chpw_commands.specs.Following.{Runs, Follows, held_realm, IsTurn, FitsLine, running_turn};

use crate::drill::line::{Line, parse_line};
use crate::drill::printed::shown_line;
use crate::drill::running::{Drill, TurnFault, open_drill};
use chpw_rules::{Config, Items, PRINCIPAL_COUNTS, Policy, PrincipalRow, RULE_COUNTS, Rule, Rules};
use std::alloc::{AllocError, Global};

/// What the lines so far have set up.
#[derive(Drop)]
pub enum Stage {
    /// Nothing yet.
    Start,
    /// The realm.
    Named(Items<u8>),
    /// The realm, the policy, and the rules and principals so far.
    Listed(Config),
    /// The machine that runs.
    Running(Drill),
}

/// The stage after a line, and what the line prints.
#[derive(Drop)]
pub struct Turn {
    pub stage: Stage,
    pub output: Items<u8>,
}

impl Stage {
    // The realm of names without `@`.
    fn realm(&self) -> &[u8]
        ensures value { result.now ≡ held_realm self.now }
    {
        match self {
            Stage::Start => &[],
            Stage::Named(realm) => realm.as_slice(),
            Stage::Listed(config) => config.realm.as_slice(),
            Stage::Running(drill) => drill.realm.as_slice(),
        }
    }
}

// A turn that prints nothing.
fn silent_turn(alloc: Global, stage: Stage) -> Turn
    ensures value { result ≡ record { stage = stage; output = [] } }
{
    Turn {
        stage,
        output: Items::of(Vec::new(alloc)),
    }
}

// First the realm.
fn turn_first(alloc: Global, line: Line) -> Option<Turn>
    ensures value { IsTurn result (turn_first line) }
{
    match line {
        Line::Realm(realm) => Some(silent_turn(alloc, Stage::Named(realm))),
        _ => None,
    }
}

// Then the policy.
fn turn_named(alloc: Global, realm: Items<u8>, line: Line) -> Option<Turn>
    ensures value { IsTurn result (turn_named realm line) }
{
    match line {
        Line::Policy(policy) => {
            let config = blank_config(alloc, realm, policy);
            Some(silent_turn(alloc, Stage::Listed(config)))
        }
        _ => None,
    }
}

// Realm and policy, and no more.
fn blank_config(alloc: Global, realm: Items<u8>, policy: Policy) -> Config
    ensures value { result ≡ blank realm policy }
{
    Config {
        realm,
        max_entries: 1,
        service: Items::of(Vec::new(alloc)),
        policy,
        rules: Rules {
            list: Items::of(Vec::new(alloc)),
        },
        principals: Items::of(Vec::new(alloc)),
    }
}

fn with_rule(config: Config, rule: Rule) -> Result<Config, AllocError>
    ensures value { IfOk result (λ config'. config' ≡ with_rule config rule) }
{
    let mut list = config.rules.list.into_vec();
    list.push(rule)?;
    Ok(Config {
        rules: Rules {
            list: Items::of(list),
        },
        ..config
    })
}

fn with_principal(config: Config, row: PrincipalRow) -> Result<Config, AllocError>
    ensures value { IfOk result (λ config'. config' ≡ with_principal config row) }
{
    let mut principals = config.principals.into_vec();
    principals.push(row)?;
    Ok(Config {
        principals: Items::of(principals),
        ..config
    })
}

// Whether there is room for this principal, and none of its name yet.
fn takes_principal(config: &Config, row: &PrincipalRow) -> bool
    ensures value { result ≡ takes_principal config.now row.now }
{
    let principals = config.principals.as_slice();
    principals.len() < PRINCIPAL_COUNTS.high && !is_in_list(principals, row)
}

// Whether one of these has the name.
fn is_in_list(principals: &[PrincipalRow], row: &PrincipalRow) -> bool
    ensures value { result ≡ list_any (is_same_principal row.now) principals.now }
{
    principals.iter().any(|other| row.name.is_same(&other.name))
}

// Then rules and principals, and `open`.
fn turn_listed(alloc: Global, config: Config, line: Line) -> Result<Option<Turn>, AllocError>
    ensures value { IfOk result (λ found. IsTurn found (turn_listed config line)) }
{
    match line {
        Line::Rule(rule) => add_rule(alloc, config, rule),
        Line::Principal(row) => add_principal(alloc, config, row),
        Line::Open {
            max_entries,
            quiet_until,
        } => open(alloc, config, max_entries, quiet_until),
        _ => Ok(None),
    }
}

fn add_rule(alloc: Global, config: Config, rule: Rule) -> Result<Option<Turn>, AllocError>
    ensures value { IfOk result (λ found. IsTurn found (turn_listed config (RuleLine rule))) }
{
    if config.rules.list.as_slice().len() >= RULE_COUNTS.high {
        return Ok(None);
    }
    let config = with_rule(config, rule)?;
    Ok(Some(silent_turn(alloc, Stage::Listed(config))))
}

fn add_principal(
    alloc: Global,
    config: Config,
    row: PrincipalRow,
) -> Result<Option<Turn>, AllocError>
    ensures value { IfOk result (λ found. IsTurn found (turn_listed config (PrincipalLine row))) }
{
    if !takes_principal(&config, &row) {
        return Ok(None);
    }
    let config = with_principal(config, row)?;
    Ok(Some(silent_turn(alloc, Stage::Listed(config))))
}

fn open(
    alloc: Global,
    config: Config,
    max_entries: u32,
    quiet_until: i64,
) -> Result<Option<Turn>, AllocError>
    ensures value { IfOk result (λ found.
        IsTurn found (turn_listed config (OpenLine max_entries quiet_until))) }
{
    let config = Config {
        max_entries,
        ..config
    };
    if !config.fits() {
        return Ok(None);
    }
    let drill = open_drill(alloc, config, quiet_until)?;
    Ok(Some(silent_turn(alloc, Stage::Running(drill))))
}

// Then the machine runs.
fn turn_running(alloc: Global, drill: Drill, line: Line) -> Result<Option<Turn>, TurnFault>
    requires moment { FitsLine line }
    ensures value { IfOk result (λ found. (m : Machine) → Runs drill m
        → IsTurn found (turn_running m line)) }
{
    let mut drill = drill;
    let Some(output) = output_of(alloc, &mut drill, line)? else {
        return Ok(None);
    };
    Ok(Some(Turn {
        stage: Stage::Running(drill),
        output,
    }))
}

// What the machine prints for a line; none for one that stands before `open` alone.
fn output_of(alloc: Global, drill: &mut Drill, line: Line) -> Result<Option<Items<u8>>, TurnFault>
    requires moment { FitsLine line }
    ensures value { IfOk result (λ found. (m : Machine) → Runs drill.old m
        → IsTurn (option_map (running_turn drill.new) found) (turn_running m line)) }
{
    let output = match line {
        Line::Fail => {
            drill.fails = true;
            Vec::new(alloc)
        }
        Line::Ask(asked) => drill.respond(asked)?.line(alloc)?.into_bytes(),
        Line::Raise { now, count } => drill.raise(now, count).line(alloc)?.into_bytes(),
        Line::Update { now, update } => drill.update(now, update)?.line(alloc)?.into_bytes(),
        Line::Show { name, text } => {
            shown_line(alloc, text.as_slice(), drill.table.keys_of(&name))?
        }
        _ => return Ok(None),
    };
    Ok(Some(Items::of(output)))
}

fn turn_line(alloc: Global, stage: Stage, line: Line) -> Result<Option<Turn>, TurnFault>
    requires moment { FitsLine line }
    ensures value { IfOk result (λ found. (s : StageModel) → Follows stage s
        → IsTurn found (turn_line s line)) }
{
    match stage {
        Stage::Start => Ok(turn_first(alloc, line)),
        Stage::Named(realm) => Ok(turn_named(alloc, realm, line)),
        Stage::Listed(config) => Ok(turn_listed(alloc, config, line)?),
        Stage::Running(drill) => turn_running(alloc, drill, line),
    }
}

/// The turn of a line; none where it is bad. An empty line is skipped.
pub fn take_turn(alloc: Global, stage: Stage, line: &[u8]) -> Result<Option<Turn>, TurnFault>
    ensures value { IfOk result (λ found. (s : StageModel) → Follows stage s
        → IsTurn found (turn s line.now)) }
{
    if line.is_empty() {
        return Ok(Some(silent_turn(alloc, stage)));
    }
    let Some(line) = parse_line(alloc, stage.realm(), line)? else {
        return Ok(None);
    };
    turn_line(alloc, stage, line)
}
