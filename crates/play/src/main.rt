// Plays a script: reads it from a file or from standard input, and prints the refusal of a bad opening, or what the script holds.
#![tactic(auto)]

ghost use Rattle.std.specs.Prelude.{◌≡◌, ◌+◌, ◌-◌, ◌<◌, ◌≤◌, length};
ghost use Rattle.play.specs.Tally.{total, counted};

use layout::{Command, Opening, Rooms};
use script::{Fault, Reader, Unopened};
use std::io::Read;
use std::process::ExitCode;
use std::{env, fmt, fs, io};
use thiserror::Error;

const USAGE: &str = "usage: play [SCRIPT]
Plays a script: the opening of a network, then commands. Without SCRIPT it is read from standard input.";

// What a network that is played has room for.
const ROOMS: Rooms = Rooms {
    subscribers: 8,
    messages: 64,
};

// Why a script was not played to its end.
#[derive(Debug, Drop, Error)]
enum Failure {
    #[error("{USAGE}")]
    Misused,
    #[error("play: cannot read {path}: {error}")]
    Unreadable { path: String, error: io::Error },
    #[error("play: {0}")]
    Faulty(#[from] Fault),
    // Standard input cannot be read, or what is printed not written.
    #[error(transparent)]
    Io(#[from] io::Error),
}

// How many commands of each kind there are.
#[derive(Clone, Copy, Default, Debug)]
struct Tally {
    joins: usize,
    leaves: usize,
    posts: usize,
    carries: usize,
}

impl Tally {
    fn count(&mut self, command: Command)
        requires { total self.old < usize.MAX }
        ensures { self.new ≡ counted self.old command }
    {
        match command {
            Command::Join { .. } => self.joins += 1,
            Command::Leave { .. } => self.leaves += 1,
            Command::Post { .. } => self.posts += 1,
            Command::Carry { .. } => self.carries += 1,
        }
    }

    // Counts the commands up to the script's end, or to a fault.
    fn count_all(&mut self, reader: &mut Reader, opening: &Opening) -> Result<(), Fault>
        requires { total self.old + (length reader.old.input.now - reader.old.at) ≤ usize.MAX }
    {
        while let Some(command) = reader.command(opening)? {
            self.count(command);
        }
        Ok(())
    }
}

impl fmt::Display for Tally {
    fn fmt<W: fmt::Write>(&self, f: &mut fmt::Formatter<W>) -> fmt::Result {
        let Tally {
            joins,
            leaves,
            posts,
            carries,
        } = self;
        write!(
            f,
            "{joins} join, {leaves} leave, {posts} post, {carries} carry"
        )
    }
}

fn play(rt: &HostRuntime, script: &[u8]) -> Result<(), Failure> {
    let mut reader = Reader::new(script);
    let opening = match reader.opening(ROOMS) {
        Ok(opening) => opening,
        // A refused opening has been played to its end.
        Err(Unopened::Refused(refusal)) => return Ok(println!(rt; "{refusal}")?),
        Err(Unopened::Faulty(fault)) => return Err(Failure::Faulty(fault)),
    };
    let mut tally = Tally::default();
    let end = tally.count_all(&mut reader, &opening);
    println!(rt; "{tally}")?;
    Ok(end?)
}

fn run(rt: &HostRuntime) -> Result<(), Failure> {
    let mut args = env::args(rt)?;
    let _program = args.next();
    let Some(word) = args.next() else {
        let mut script = Vec::new(rt.alloc());
        rt.stdin().read_to_end(&mut script)?;
        return play(rt, &script);
    };
    if args.next().is_some() {
        return Err(Failure::Misused);
    }
    match word.as_str() {
        "--help" => Ok(println!(rt; "{USAGE}")?),
        option if option.starts_with("--") => Err(Failure::Misused),
        path => match fs::read(rt, path) {
            Ok(script) => play(rt, &script),
            Err(error) => Err(Failure::Unreadable { path: word, error }),
        },
    }
}

fn main(rt: HostRuntime) -> anyhow::Result<ExitCode> {
    match run(&rt) {
        Ok(()) => Ok(ExitCode::SUCCESS),
        Err(Failure::Io(error)) => Err(error.into()),
        Err(failure) => {
            eprintln!(rt; "{failure}")?;
            Ok(ExitCode::FAILURE)
        }
    }
}
