//! What several workers do at a desk.

use crate::desk::asking::{printed_answer, request};
use crate::desk::overtaken::Overtaken;
use crate::desk::pool::pool;
use crate::desk::racing::together;
use crate::desk::scene::Scene;
use crate::desk::words::{first_word, number};
use crate::machine::Machine;
use chpw_book::{AtDesk, DeskName, Pass};
use chpw_client::SentRequest;
use chpw_serve::NoGate;
use std::alloc::Global;
use std::io;
use std::sync::Wait;
use std::thread::Threads;
use support_cases::no_case;

/// The answer to each of these lines.
pub fn answers_text<D: DeskName + Send + Sync, R: Machine>(
    scene: &Scene<'_, D, R>,
    passes: &mut Vec<Pass<D>>,
    lines: &str,
) -> io::Result<String> {
    let mut text = String::new(scene.alloc);
    for line in lines.lines() {
        let said = match line.strip_prefix("pool ") {
            Some(requests) => pool(scene, passes, requests)?,
            None => answer(scene, passes, line)?,
        };
        text.push_str(said.as_str())?;
        text.push_str("\n")?;
    }
    Ok(text)
}

fn answer<D: DeskName + Send + Sync, R: Threads + Wait + Sync>(
    scene: &Scene<'_, D, R>,
    passes: &mut [Pass<D>],
    line: &str,
) -> io::Result<String> {
    let (word, text) = first_word(line);
    match word {
        "learn" => learn(scene.alloc, passes, number(Some(text))),
        "overtaken" => overtaken(scene, passes, text),
        "together" => together(scene, passes, text),
        _ => match passes.get_mut(number(Some(word)) as usize) {
            Some(pass) => scene.step(pass, text),
            None => Err(no_case()),
        },
    }
}

/// A worker learns the front of the first one's: how many changes that has.
fn learn<D: DeskName>(alloc: Global, passes: &mut [Pass<D>], learner: u32) -> io::Result<String> {
    let Some((first, others)) = passes.split_first_mut() else {
        return Err(no_case());
    };
    let Some(learner) = others.get_mut((learner as usize).wrapping_sub(1)) else {
        return Err(no_case());
    };
    let Some(front) = first.front() else {
        return Ok(String::from_str(alloc, "no front")?);
    };
    learner.learn(front);
    Ok(format!(in alloc; "front {}", front.len())?)
}

/// `RAISES NAME MICROS PASSWORD`: what the first of two workers answers, where the second raises the count before each of its
/// first decisions; how many raises were made, and how often the request was decided, and with its keys derived under the
/// lock.
fn overtaken<D: DeskName, R: Wait>(
    scene: &Scene<'_, D, R>,
    passes: &mut [Pass<D>],
    text: &str,
) -> io::Result<String> {
    let (raises, text) = first_word(text);
    let sent = request(scene.alloc, text)?;
    let Some((first, others)) = passes.split_first_mut() else {
        return Err(no_case());
    };
    let Some(second) = others.first_mut() else {
        return Err(no_case());
    };
    overtaken_by(scene, first, second, number(Some(raises)), &sent)
}

fn overtaken_by<D: DeskName, R: Wait>(
    scene: &Scene<'_, D, R>,
    pass: &mut Pass<D>,
    other: &mut Pass<D>,
    raises: u32,
    sent: &SentRequest,
) -> io::Result<String> {
    let place = AtDesk {
        rt: scene.rt,
        desk: scene.desk,
        pass,
    };
    let mut place = Overtaken {
        place,
        other,
        raises,
        raised: 0,
        decisions: 0,
        derivations: 0,
    };
    let said = printed_answer(scene.alloc, scene.service, &mut place, &mut NoGate, sent)?;
    let (raised, decisions, derivations) = (place.raised, place.decisions, place.derivations);
    Ok(format!(in scene.alloc;
        "{said}; {raised} raises, {decisions} decisions, {derivations} under the lock"
    )?)
}
