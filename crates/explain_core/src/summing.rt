//! Why `sum` has no sums of a file, or can't read a list.

use crate::files::{text_of, trouble_of};
use crate::line::Line;
use crate::recordings::{RECORDING, kind_of};
use ended_core::{Ended, Summed};
use request_core::Fault;
use std::rt::{Env, Files};

impl Line {
    /// Adds what `sum` came to at a file.
    pub(crate) fn explain_summed<R: Files + Env + AllocGlobal>(
        &mut self,
        rt: &R,
        file: Summed,
        ended: Ended,
    ) {
        let name = self.say_summed(file);
        match ended {
            Ended::ReadFailed => {
                self.explain_unsummed(rt, name);
                if let Summed::Listed(_, _, _) = file {
                    self.say_names(rt, name);
                }
            }
            Ended::Fault(Fault::FileUnread(why)) => self.explain_file(rt, name, why),
            Ended::Fault(Fault::Memory) => self.push(MEMORY),
            Ended::ListRefused(number) => self.explain_list(rt, name, number),
            _ => {}
        }
    }

    // Adds why a file can't be read.
    fn explain_unsummed<R: Files>(&mut self, rt: &R, name: &str) {
        if name.contains('\0') {
            return self.push(NOT_TEXT);
        }
        match trouble_of(rt, name) {
            Some(trouble) => self.explain_trouble(rt, name, trouble),
            None => self.push(CHANGED),
        }
    }

    // Adds where names of a list are looked up, if this one is one.
    fn say_names<R: Env + AllocGlobal>(&mut self, rt: &R, name: &str) {
        if !name.contains('\0') {
            self.say_folder(rt, "; names are looked up in ", name);
        }
    }

    // Adds a file and where its name is. Returns the name.
    fn say_summed<'a>(&mut self, file: Summed<'a>) -> &'a str {
        match file {
            Summed::File(name) => {
                self.named(name, "FILE", ": ");
                name
            }
            Summed::List(name) => {
                self.named(name, "LIST", ": ");
                name
            }
            Summed::Listed(name, number, list) => {
                self.say_part_of(name, " (line {n0} of ", number, list);
                name
            }
        }
    }

    // Adds why a list is refused: a line of it, or for the number 0 all of it.
    fn explain_list<R: Files>(&mut self, rt: &R, name: &str, number: usize) {
        if kind_of(rt, name) == RECORDING {
            return self.push(LISTED);
        }
        match text_of(rt, self.alloc, name) {
            Some(text) => self.explain_lines(&text, number),
            None => self.push(WANTED),
        }
    }

    fn explain_lines(&mut self, text: &[u8], number: usize) {
        match number {
            _ if text.is_empty() => self.push("it has no line"),
            0 => self.push("it is no text"),
            _ => self.explain_line(text, number),
        }
    }

    fn explain_line(&mut self, text: &[u8], number: usize) {
        let before = number.saturating_sub(1);
        for found in text.split(|byte| *byte == b'\n').skip(before).take(1) {
            self.say("line {n0} is ", [number as u64, 0, 0]);
            self.show_line(found.strip_suffix(b"\r").unwrap_or(found));
        }
        self.push(WANTED);
    }

    fn show_line(&mut self, found: &[u8]) {
        match (found.len(), std::str::from_utf8(found)) {
            (0..=80, Ok(found)) => self.quote("\"", found, "\"; "),
            (0..=80, Err(_)) => {
                self.push("\"");
                self.raw(found);
                self.push("\"; ");
            }
            (bytes, _) => self.say("{c0} bytes long; ", [bytes as u64, 0, 0]),
        }
    }
}

const NOT_TEXT: &str = "a name has to be UTF-8: give the file another name, or a link to it";

const CHANGED: &str = "a read failed part way, or it was changed while it was read";

const LISTED: &str = "it is a recording; without --check it is summed";

const MEMORY: &str = "what surrounds the sound is held whole, and a list: free some memory";

const WANTED: &str = "a line has to be one that dsdarc sum prints of a file";
