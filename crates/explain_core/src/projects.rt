//! Why a project text or a mix text is not read: which key of it, and where.

use crate::files::text_of;
use crate::line::{Line, NONE};
use crate::words::is_near;
use fir_core::{MAX_FACTOR, MAX_SHIFT, MAX_TAP_SUM, MAX_TAPS};
use mix_core::{
    CLIP_KEYS, DECODER_KEYS, MAX_AUDIBLE_SUM, MAX_CLIPS, MAX_DECODER_SUM, MAX_DECODERS, MAX_EVERY,
    MAX_GAIN, MAX_LIMIT, MAX_OVERLAPPING, MAX_POINTS, MAX_UNIT, MIX_KEYS, TEXT_KEYS,
};
use project_core::{
    CUE_KEYS, DECIMATE_KEYS, DOCUMENT_KEYS, Key, MAX_BRIDGE, MAX_CUES, MAX_END, MAX_PLACE,
    MAX_TAKES, MAX_TITLE, MAX_WEIGHT_SUM, MAX_WEIGHTS, ProjectFault, SPLICE_KEYS, Table,
};
use std::alloc::Global;
use std::rt::Files;
use toml::Value;

impl Line {
    /// Adds why a project text or a mix text is refused.
    pub(crate) fn explain_project(&mut self, source: &[u8], fault: ProjectFault) {
        let Ok(lines) = std::str::from_utf8(source) else {
            return self.push("it is not UTF-8");
        };
        match toml::table_from_str(self.alloc, lines) {
            Ok(document) => self.explain_text(lines, &document, fault),
            Err(error) => self.explain_toml(source, &error),
        }
    }

    /// The same of the text of this name.
    pub(crate) fn explain_source<R: Files>(&mut self, rt: &R, name: &str, fault: ProjectFault) {
        if let Some(source) = text_of(rt, self.alloc, name) {
            self.explain_project(&source, fault);
        }
    }

    fn explain_text(&mut self, lines: &str, document: &toml::Table, fault: ProjectFault) {
        match fault {
            ProjectFault::UnknownKey(table) => self.explain_unknown_key(lines, document, table),
            ProjectFault::MissingKey(key, table) => {
                self.say_table(lines, table);
                self.quote(" has no \"", key.name(), "\": ");
                self.say_wanted(key, table);
            }
            ProjectFault::WrongKind(key, table) | ProjectFault::OutOfLimit(key, table) => {
                self.explain_value(lines, document, (key, holder_of(key, table)));
            }
            ProjectFault::NoTake {
                number,
                take,
                takes,
            } => {
                let table = match value_at(Some(document), Key::Mix) {
                    Some(_) => Table::Clip(number),
                    None => Table::Cue(number),
                };
                self.say_name(table);
                self.push(" names take ");
                self.signed(take);
                self.say_line(key_line(lines, table, Key::Take.name()));
                self.say("; there are {n0}, counted from 0", [takes as u64, 0, 0]);
            }
            _ => self.explain_numbers(lines, fault),
        }
    }

    // Adds what is at a key of a table, and what has to be there.
    fn explain_value(&mut self, lines: &str, document: &toml::Table, (key, table): (Key, Table)) {
        self.say_key(lines, table, key.name());
        if let Some(value) = value_at(content_of(document, table), key) {
            self.push(" is ");
            self.say_value(value);
            self.push(", and");
        }
        self.push(" has to be ");
        self.say_wanted(key, table);
    }

    fn explain_numbers(&mut self, lines: &str, fault: ProjectFault) {
        match fault {
            ProjectFault::ShortCue {
                cue,
                start,
                stop,
                weights,
            } => {
                let (bits, least) = (stop.saturating_sub(start), weights.saturating_sub(1));
                self.say_cue_in(lines, cue);
                self.say(SHORT, [start as u64, stop as u64, bits as u64]);
                self.say(WEIGHED, [weights as u64, least as u64, 0]);
            }
            ProjectFault::LastBridge { cue, bridge } => {
                self.say_key(lines, Table::Cue(cue), Key::Bridge.name());
                self.say(LAST, [bridge as u64, cue as u64, 0]);
            }
            _ => {}
        }
    }

    fn explain_toml(&mut self, source: &[u8], error: &toml::de::Error) {
        if let Some(span) = error.span() {
            self.say("line {n0}: ", [line_at(source, span.start) as u64, 0, 0]);
            let after = match is_in_texts(source, span.start) {
                true => QUOTES,
                false => "",
            };
            self.quote("", error.message(), after);
        }
    }

    // Adds what the first key of a table that isn't known may have meant.
    fn explain_unknown_key(&mut self, lines: &str, document: &toml::Table, table: Table) {
        let (keys, _, table_name) = facts_of(table);
        if let Some(name) = unknown_in(content_of(document, table), keys) {
            self.say_key(lines, table, name);
            self.quote(" is no key of ", table_name, "");
            self.explain_key(name, keys, table);
        }
    }

    // Adds what a name may have meant that is no key of a table.
    fn explain_key(&mut self, name: &str, keys: &[Key], table: Table) {
        if let Some(meant) = near_in(self.alloc, keys, name) {
            return self.quote("; did you mean \"", meant, "\"?");
        }
        for home in homes_of(table) {
            let (others, _, home_name) = facts_of(home);
            if is_among(others, name) {
                return self.quote("; it belongs to ", home_name, "");
            }
        }
        self.push("; its keys are ");
        for (number, key) in keys.iter().enumerate() {
            self.say_item(number, key.name());
        }
    }

    fn say_line(&mut self, number: Option<usize>) {
        if let Some(number) = number {
            self.say(" in line {n0}", [number as u64, 0, 0]);
        }
    }

    /// Adds which cue of a text it is, and where it is.
    pub(crate) fn say_cue_in(&mut self, lines: &str, number: usize) {
        self.say_table(lines, Table::Cue(number));
    }

    /// The same of a clip of a mix text.
    pub(crate) fn say_clip_in(&mut self, lines: &str, number: usize) {
        self.say_table(lines, Table::Clip(number));
    }

    fn say_table(&mut self, lines: &str, table: Table) {
        self.say_name(table);
        self.say_line(line_of(lines, table));
    }

    fn say_name(&mut self, table: Table) {
        let (_, _, name) = facts_of(table);
        match number_in(table) {
            Some(number) => {
                self.push(name.trim_start_matches("a "));
                self.say(" {n0}", [number as u64, 0, 0]);
            }
            None => self.push(name),
        }
    }

    fn say_key(&mut self, lines: &str, table: Table, key: &str) {
        self.quote("\"", key, "\"");
        self.say_line(key_line(lines, table, key));
    }

    fn say_value(&mut self, value: &Value) {
        match value {
            Value::Integer(number) => self.signed(*number),
            Value::String(words) if words.len() <= 80 => self.quote("\"", words, "\""),
            Value::String(words) => self.say("a text of {c0} bytes", [words.len() as u64, 0, 0]),
            Value::Array(values) => self.say("an array of {n0}", [values.len() as u64, 0, 0]),
            _ => self.quote("of the kind ", value.type_str(), ""),
        }
    }

    fn say_wanted(&mut self, key: Key, table: Table) {
        let (text, numbers) = wanted_at(key, table);
        self.say(text, numbers);
    }
}

// What has to be at a key of a table, and the numbers in it.
type Wanted = (&'static str, [u64; 3]);

fn wanted_at(key: Key, table: Table) -> Wanted {
    match key {
        Key::Decimate | Key::Splice | Key::Mix => ("a table", NONE),
        Key::Taps if is_of_mix(table) => DECODER_TAPS,
        Key::Taps => TAPS,
        Key::Factor => FACTOR,
        Key::Delay => DELAY,
        Key::Shift => SHIFT,
        Key::Width => ("16 or 24", NONE),
        Key::Weights => WEIGHTS,
        Key::Takes => TAKES,
        Key::Cue => CUES,
        Key::Take => ("the number of a take, counted from 0", NONE),
        Key::Start | Key::Stop | Key::At => PLACE,
        Key::Bridge => BRIDGE,
        Key::Target => ("\"fade\" or \"line\"", NONE),
        Key::Line => LINE,
        Key::Title => TITLE,
        Key::Unit => UNIT,
        Key::Audible => AUDIBLE,
        Key::Limit => LIMIT,
        Key::Every => EVERY,
        Key::Decoder if number_in(table).is_some() => DECODER,
        Key::Decoder => DECODERS,
        Key::Clip => CLIPS,
        Key::Length => LENGTH,
        Key::Gain => GAIN,
        Key::Gains => GAINS,
    }
}

// The first of some keys that a name may mean.
fn near_in(alloc: Global, keys: &[Key], name: &str) -> Option<&'static str> {
    for key in keys {
        if is_near(alloc, name, key.name()) {
            return Some(key.name());
        }
    }
    None
}

// Whether the value that has a byte is one of texts, by the last key before it.
fn is_in_texts(source: &[u8], place: usize) -> bool {
    let before = source.get(..place).unwrap_or(&[]);
    let text = std::str::from_utf8(before).unwrap_or("");
    let (front, value) = text.rsplit_once('=').unwrap_or(("", ""));
    let key = front.trim_end();
    let is_line = key.ends_with("title") || key.ends_with("target");
    (key.ends_with("takes") && !value.contains(']')) || (is_line && !value.contains('\n'))
}

// The first key of a table that is none of these.
fn unknown_in<'a>(content: Option<&'a toml::Table>, keys: &[Key]) -> Option<&'a str> {
    for (name, _) in content? {
        if !is_among(keys, name.as_str()) {
            return Some(name.as_str());
        }
    }
    None
}

fn is_among(keys: &[Key], name: &str) -> bool {
    for key in keys {
        if key.name() == name {
            return true;
        }
    }
    false
}

// The keys of a table, the name by which it begins, and its name for messages.
fn facts_of(table: Table) -> (&'static [Key], &'static str, &'static str) {
    match table {
        Table::Document => (&DOCUMENT_KEYS, "", "the document"),
        Table::Decimate => (&DECIMATE_KEYS, "decimate", "the table \"decimate\""),
        Table::Splice => (&SPLICE_KEYS, "splice", "the table \"splice\""),
        Table::Cue(_) => (&CUE_KEYS, "splice.cue", "a cue"),
        Table::MixDocument => (&TEXT_KEYS, "", "the document"),
        Table::Mix => (&MIX_KEYS, "mix", "the table \"mix\""),
        Table::Decoder(_) => (&DECODER_KEYS, "mix.decoder", "a decoder"),
        Table::Clip(_) => (&CLIP_KEYS, "mix.clip", "a clip"),
    }
}

// Whether a table is one of a mix text.
fn is_of_mix(table: Table) -> bool {
    matches!(
        table,
        Table::MixDocument | Table::Mix | Table::Decoder(_) | Table::Clip(_)
    )
}

// The tables of a text that has this one.
fn homes_of(table: Table) -> [Table; 4] {
    if is_of_mix(table) {
        let decoder = Table::Decoder(0);
        return [Table::MixDocument, Table::Mix, decoder, Table::Clip(0)];
    }
    [
        Table::Document,
        Table::Decimate,
        Table::Splice,
        Table::Cue(0),
    ]
}

// The number of a table that is one of several.
fn number_in(table: Table) -> Option<usize> {
    match table {
        Table::Cue(number) | Table::Decoder(number) | Table::Clip(number) => Some(number),
        _ => None,
    }
}

// The table that holds a key, where the table itself may be what is at the key.
fn holder_of(key: Key, table: Table) -> Table {
    match key {
        Key::Decimate | Key::Splice => Table::Document,
        Key::Cue => Table::Splice,
        Key::Mix => Table::MixDocument,
        Key::Clip => Table::Mix,
        Key::Decoder if !matches!(table, Table::Clip(_)) => Table::Mix,
        _ => table,
    }
}

// What is in a table.
fn content_of(document: &toml::Table, table: Table) -> Option<&toml::Table> {
    match table {
        Table::Document | Table::MixDocument => Some(document),
        Table::Decimate => table_at(document, Key::Decimate),
        Table::Splice => table_at(document, Key::Splice),
        Table::Mix => table_at(document, Key::Mix),
        Table::Cue(number) => item_at(table_at(document, Key::Splice), Key::Cue, number),
        Table::Decoder(number) => item_at(table_at(document, Key::Mix), Key::Decoder, number),
        Table::Clip(number) => item_at(table_at(document, Key::Mix), Key::Clip, number),
    }
}

fn table_at(document: &toml::Table, key: Key) -> Option<&toml::Table> {
    value_at(Some(document), key)?.as_table()
}

fn item_at(table: Option<&toml::Table>, key: Key, number: usize) -> Option<&toml::Table> {
    value_at(table, key)?.as_array()?.get(number)?.as_table()
}

fn value_at(table: Option<&toml::Table>, key: Key) -> Option<&Value> {
    table?.get(key.name())
}

// The line by which a table begins, counted from 1, if it has one.
fn line_of(text: &str, table: Table) -> Option<usize> {
    let (_, header, _) = facts_of(table);
    let mut before = number_in(table).unwrap_or(0);
    for (place, line) in text.lines().enumerate() {
        if header_in(line) == Some(header) {
            if before == 0 {
                return Some(place.saturating_add(1));
            }
            before -= 1;
        }
    }
    None
}

// The line of a key in a table, which may have no line of its own. Then it is not known of one of several. What is no
// key of the document may be a table.
fn key_line(text: &str, table: Table, key: &str) -> Option<usize> {
    let first = match (line_of(text, table), number_in(table)) {
        (None, Some(_)) => return None,
        (first, _) => first.unwrap_or(0),
    };
    let is_document = matches!(table, Table::Document | Table::MixDocument);
    for (place, line) in text.lines().enumerate().skip(first) {
        let is_there = match (header_in(line), is_document) {
            (Some(header), true) => header.starts_with(key),
            (Some(_), false) => return None,
            (None, true) => begins_with(line, key),
            (None, false) => has_key(line, key),
        };
        if is_there {
            return Some(place.saturating_add(1));
        }
    }
    None
}

// The line in which a byte of a text is.
fn line_at(text: &[u8], place: usize) -> usize {
    let mut line = 1usize;
    for byte in text.iter().take(place) {
        line = line.saturating_add((*byte == b'\n').into());
    }
    line
}

// A line without what is said about it.
fn code_of(line: &str) -> &str {
    line.split_once('#').unwrap_or((line, "")).0
}

// What is in the brackets of a line by which a table begins.
fn header_in(line: &str) -> Option<&str> {
    let inner = line.trim_start().strip_prefix('[')?.trim_start_matches('[');
    Some(inner.split_once(']').unwrap_or((inner, "")).0.trim())
}

// Whether the key that a line gives a value to is this one, or begins with it.
fn begins_with(line: &str, key: &str) -> bool {
    let (name, _) = code_of(line).split_once('=').unwrap_or(("", ""));
    bare(name.split_once('.').unwrap_or((name, "")).0) == key
}

// Whether a line gives a value to a key, alone or beside others.
fn has_key(line: &str, key: &str) -> bool {
    for parts in code_of(line).split(',') {
        for part in parts.split('{') {
            if let Some((name, _)) = part.split_once('=') {
                if bare(name.rsplit_once('.').unwrap_or(("", name)).1) == key {
                    return true;
                }
            }
        }
    }
    false
}

fn bare(key: &str) -> &str {
    key.trim().trim_matches('"')
}

const SHORT: &str = " is from {n0} to {n1}, {n2} bits long; ";

const WEIGHED: &str = "with {n0} weights it needs {n1} or more";

const LAST: &str = " is {n0}, but cue {n1} is the last: take it out";

const TAPS: Wanted = (
    "1 to {n0} whole numbers, with an absolute sum of at most {c1}",
    [MAX_TAPS as u64, MAX_TAP_SUM, 0],
);

const FACTOR: Wanted = ("a multiple of 8, from 8 to {n0}", [MAX_FACTOR as u64, 0, 0]);

const DELAY: Wanted = (
    "a whole number, 0 or more and below the number of taps",
    NONE,
);

const SHIFT: Wanted = ("a whole number from 0 to {n0}", [MAX_SHIFT as u64, 0, 0]);

const CUES: Wanted = ("1 to {n0} tables [[splice.cue]]", [MAX_CUES as u64, 0, 0]);

const BRIDGE: Wanted = ("a whole number from 0 to {n0}", [MAX_BRIDGE as u64, 0, 0]);

const PLACE: Wanted = ("a whole number from 0 to {c0}", [MAX_PLACE as u64, 0, 0]);

const LIMIT: Wanted = ("a whole number from 0 to {c0}", [MAX_LIMIT as u64, 0, 0]);

const TITLE: Wanted = ("a text of at most {n0} bytes", [MAX_TITLE as u64, 0, 0]);

const UNIT: Wanted = ("a whole number from 1 to {c0}", [MAX_UNIT as u64, 0, 0]);

const EVERY: Wanted = ("a whole number from 1 to {n0}", [MAX_EVERY as u64, 0, 0]);

const DECODER_TAPS: Wanted = (
    "an odd number of whole numbers, at most {c0}, with an absolute sum of at most {c1}",
    [mix_core::MAX_TAPS as u64, MAX_DECODER_SUM, 0],
);

const AUDIBLE: Wanted = (
    "an odd number of whole numbers, at most {c0}, with an absolute sum of at most {c1} \
     and a sum above 0",
    [mix_core::MAX_TAPS as u64, MAX_AUDIBLE_SUM, 0],
);

const DECODER: Wanted = ("the number of a decoder, counted from 0", NONE);

const DECODERS: Wanted = (
    "1 to {n0} tables [[mix.decoder]]",
    [MAX_DECODERS as u64, 0, 0],
);

const CLIPS: Wanted = (
    "1 to {c0} tables [[mix.clip]], and at most {n1} of them at one place",
    [MAX_CLIPS as u64, MAX_OVERLAPPING as u64, 0],
);

const LENGTH: Wanted = (
    "a whole number, 1 or more, and the clip may end at most at {c0}",
    [MAX_PLACE as u64, 0, 0],
);

const GAIN: Wanted = (
    "1 to {c0} points [place, gain], with rising places from 0 to {c1} and gains from -{c2} to {c2}",
    [MAX_POINTS as u64, MAX_PLACE as u64, MAX_GAIN as u64],
);

const GAINS: Wanted = (
    "for each channel 1 to {c0} points as gain has them, and may not be beside gain",
    [MAX_POINTS as u64, 0, 0],
);

const WEIGHTS: Wanted = (
    "2 to {n0} whole numbers, with an absolute sum of at most {n1}",
    [MAX_WEIGHTS as u64, MAX_WEIGHT_SUM, 0],
);

const TAKES: Wanted = (
    "1 to {n0} names, each in quotation marks",
    [MAX_TAKES as u64, 0, 0],
);

const LINE: Wanted = (
    "two whole numbers from -{n0} to {n0}, and only with target = \"line\"",
    [MAX_END as u64, 0, 0],
);

const QUOTES: &str = "; a text is in quotation marks, as in takes = [\"one.dff\", \"two.dff\"]";
