// The player: reads a script from the file that its one argument names, or from standard input, plays each line over
// the arena's table, and writes the answers to standard output. docs/PLAYER.md has the lines and their answers.
//
// Its exit status is always 0. A line that is no request stops the player with a message on standard output, after all
// earlier answers. A file that cannot be read, and output that cannot be written, are told on standard error.
#![tactic(auto)]

mod answer;
mod buffer;
mod host;
mod output;
mod play;

use output::fail;
use play::Player;
use std::io::Read;
use std::rt::Files;
use std::{env, fs};

// The program and one argument.
const MOST_ARGUMENTS: usize = 2;

// Plays an open input to its end. The name is for a message. A proved loop has to end, and nothing says that the input
// does: so the loop counts its turns, up to a number that no run uses up.
fn play_input(rt: &(impl Print + Eprint + Drop), input: &mut impl Read, name: &str) {
    let mut player = Player::new(rt);
    for _ in 0..u64::MAX {
        if player.play_some(input, name).is_err() {
            return;
        }
    }
}

// Plays the file of that name.
fn play_file(rt: &(impl Files + Print + Eprint + Drop), path: &str) {
    match fs::open(rt, path) {
        Ok(mut file) => play_input(rt, &mut file, path),
        Err(why) => fail(rt, path, why),
    }
}

// Plays the script that the arguments name.
fn play_arguments(rt: &HostRuntime, mut arguments: env::Args) {
    if MOST_ARGUMENTS < arguments.len() {
        let _ = eprintln!(rt; "usage: breatharena [FILE]");
        return;
    }
    match arguments.nth(1) {
        Some(path) => play_file(rt, path.as_str()),
        None => play_input(rt, &mut rt.reader(), "standard input"),
    }
}

fn main(rt: HostRuntime) {
    match env::args(&rt) {
        Ok(arguments) => play_arguments(&rt, arguments),
        Err(why) => fail(&rt, "FILE", why),
    }
}
