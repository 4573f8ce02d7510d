//! What the program is asked for.
ghost use Rattle.std.specs.Prelude.{◌<◌};

use std::env::Env;
use std::{env, io};

/// How many rows the volume has, and how many of them are asked for.
#[derive(Clone, Copy)]
pub struct Sizes {
    pub rows: u32,
    pub gets: u32,
    ghost some: { 0 < rows },
}

/// The one stage that is to be done, over what an earlier call left in the folder.
#[derive(Clone, Copy, PartialEq, Eq)]
pub enum Stage {
    Fill,
    Mount,
    Gets,
    Scan,
    Checkpoint,
}

/// What is to be done to a volume in memory, or in the folder. Where no stage is named all of them are done, one after another.
#[derive(Drop)]
pub struct Task {
    pub sizes: Sizes,
    pub times: bool,
    pub folder: Option<String>,
    pub stage: Option<Stage>,
}

fn stage_of(word: &str) -> Option<Stage> {
    match word {
        "fill" => Some(Stage::Fill),
        "mount" => Some(Stage::Mount),
        "gets" => Some(Stage::Gets),
        "scan" => Some(Stage::Scan),
        "checkpoint" => Some(Stage::Checkpoint),
        _ => None,
    }
}

fn sizes_of(rows: &str, gets: &str) -> Option<Sizes> {
    let Ok(rows) = rows.parse::<u32>() else {
        return None;
    };
    let Ok(gets) = gets.parse::<u32>() else {
        return None;
    };
    if rows == 0 {
        return None;
    }
    Some(Sizes { rows, gets })
}

fn times_of(word: &str) -> Option<bool> {
    match word {
        "counts" => Some(false),
        "times" => Some(true),
        _ => None,
    }
}

/// The words behind the program's name and `volume`, or None where they ask for nothing that it does.
pub fn read_words(rt: &(impl Env + AllocGlobal)) -> io::Result<Option<Task>> {
    let mut words = Vec::new(rt.alloc());
    for word in env::args(rt)?.skip(2) {
        words.push(word)?;
    }
    task_of(&words)
}

fn task_of(words: &[String]) -> io::Result<Option<Task>> {
    let [rows, gets, times, place @ ..] = words else {
        return Ok(None);
    };
    let Some(sizes) = sizes_of(rows.as_str(), gets.as_str()) else {
        return Ok(None);
    };
    let Some(times) = times_of(times.as_str()) else {
        return Ok(None);
    };
    let (folder, stage) = match place {
        [] => (None, None),
        [folder] => (Some(folder.clone()?), None),
        [folder, stage] => match stage_of(stage.as_str()) {
            None => return Ok(None),
            stage => (Some(folder.clone()?), stage),
        },
        _ => return Ok(None),
    };
    Ok(Some(Task {
        sizes,
        times,
        folder,
        stage,
    }))
}
