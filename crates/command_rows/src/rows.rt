// Rows of text: what stands on the shelf, commands, and what they are told to give.
use crate::world::World;
use seed_io::SureShelf;
use seed_model::NoMemory;
use std::alloc::Global;
use std::mem;

/// What the text below a row's first line is for.
#[derive(Drop)]
enum Row {
    Nothing,
    /// A text that other rows may name.
    Text(String),
    /// What a file of the shelf has.
    Put(String),
    /// What stands in a file, and what is to stand there instead.
    Change(String),
    /// How the last command ended, and what it printed.
    Ends(String),
    /// How it ended, and what it printed last.
    EndsIn(String),
    /// How it ended, and what it printed first.
    Begins(String),
    /// What a file of the shelf has afterwards.
    Holds(String),
    /// What reads of a file give, whatever is written there.
    Gives(String),
    /// No row begins so.
    Unknown,
}

/// Rows in order, each carried out once the next one begins.
#[derive(Drop)]
pub(crate) struct Rows {
    alloc: Global,
    world: World,
    texts: SureShelf,
    row: Row,
    /// The line where the row begins.
    begun: u32,
    old: String,
    text: String,
    line: u32,
    count: u32,
    others: Vec<u32>,
}

/// The numbers among the words.
fn numbers_in(alloc: Global, words: &[String]) -> Result<Vec<u64>, NoMemory> {
    let mut numbers = Vec::new(alloc);
    for word in words {
        if let Ok(number) = word.parse::<u64>() {
            numbers.push(number)?;
        }
    }
    Ok(numbers)
}

/// Adds a line of text: `\r` is a CR, `\0` is a NUL, `\\` is a backslash, and one at the end takes the LF away.
fn add_line(text: &mut String, line: &str) -> Result<(), NoMemory> {
    let mut is_escaped = false;
    for letter in line.chars() {
        if is_escaped {
            is_escaped = false;
            let meant = match letter {
                'r' => '\r',
                '0' => '\0',
                other => other,
            };
            text.push(meant)?;
        } else if letter == '\\' {
            is_escaped = true;
        } else {
            text.push(letter)?;
        }
    }
    if !is_escaped {
        text.push('\n')?;
    }
    Ok(())
}

/// A copy of a word, or nothing where there is none.
fn word_at(alloc: Global, words: &[String], place: usize) -> Result<String, NoMemory> {
    match words.get(place) {
        Some(word) => Ok(String::from_str(alloc, word.as_str())?),
        None => Ok(String::new(alloc)),
    }
}

impl Rows {
    pub(crate) fn new(alloc: Global) -> Result<Self, NoMemory> {
        Ok(Rows {
            alloc,
            world: World::new(alloc, Vec::new(alloc), Vec::new(alloc)),
            texts: SureShelf::new(alloc),
            row: Row::Nothing,
            begun: 0,
            old: String::new(alloc),
            text: String::new(alloc),
            line: 0,
            count: 0,
            others: Vec::new(alloc),
        })
    }

    /// How many rows say how a command ends or what a file has then.
    pub(crate) fn count(&self) -> u32 {
        self.count
    }

    /// The lines of the rows that were not as told.
    pub(crate) fn others(&self) -> &[u32] {
        self.others.as_slice()
    }

    /// Takes the next line.
    pub(crate) fn take(&mut self, line: &str) -> Result<(), NoMemory> {
        self.line = self.line.saturating_add(1);
        if let Some(rest) = line.strip_prefix("  ") {
            return add_line(&mut self.text, rest);
        }
        if let Some(rest) = line.strip_prefix("* ") {
            return self.repeat(rest);
        }
        if let Some(rest) = line.strip_prefix("- ") {
            return add_line(&mut self.old, rest);
        }
        if let Some(rest) = line.strip_prefix("+ ") {
            return add_line(&mut self.text, rest);
        }
        if line.is_empty() || line.starts_with('#') {
            return Ok(());
        }
        self.close()?;
        self.begun = self.line;
        self.begin(line)
    }

    /// Begins the row of a line.
    fn begin(&mut self, line: &str) -> Result<(), NoMemory> {
        let words = self.words_of(line)?;
        let verb = word_at(self.alloc, &words, 0)?;
        let name = word_at(self.alloc, &words, 1)?;
        if verb.as_str() == "goseed" {
            return self.world.run(self.alloc, words.get(1..).unwrap_or(&[]));
        }
        if verb.as_str() == "shelf" {
            self.world = World::new(
                self.alloc,
                numbers_in(self.alloc, &words)?,
                Vec::new(self.alloc),
            );
            return Ok(());
        }
        if verb.as_str() == "sink" {
            self.world = World::new(
                self.alloc,
                Vec::new(self.alloc),
                numbers_in(self.alloc, &words)?,
            );
            return Ok(());
        }
        if verb.as_str() == "lacks" {
            let as_told = self.world.bytes(name.as_str()).is_none();
            return self.note(as_told);
        }
        if let Some(known) = words.get(2) {
            self.begin_with(known.as_str())?;
        }
        self.row = match verb.as_str() {
            "text" => Row::Text(name),
            "put" => Row::Put(name),
            "change" => Row::Change(name),
            "ends" => Row::Ends(name),
            "ends-in" => Row::EndsIn(name),
            "begins" => Row::Begins(name),
            "holds" => Row::Holds(name),
            "gives" => Row::Gives(name),
            _ => Row::Unknown,
        };
        Ok(())
    }

    /// Adds a line of text so many times, with the number of the time, in eight hex digits, for `%`.
    fn repeat(&mut self, line: &str) -> Result<(), NoMemory> {
        let Some((times, shape)) = line.split_once(' ') else {
            return self.note(false);
        };
        let Ok(times) = times.parse::<u32>() else {
            return self.note(false);
        };
        for time in 0..times {
            let number = format!(in self.alloc; "{time:08x}")?;
            let spelled = shape.replace(self.alloc, "%", number.as_str())?;
            add_line(&mut self.text, spelled.as_str())?;
        }
        Ok(())
    }

    /// The words of a line, where a word `@NAME` stands for the text that an earlier row gave.
    fn words_of(&self, line: &str) -> Result<Vec<String>, NoMemory> {
        let mut words = Vec::new(self.alloc);
        for spelled in line.split(' ') {
            words.push(self.word_of(spelled)?)?;
        }
        Ok(words)
    }

    /// A word of a line.
    fn word_of(&self, spelled: &str) -> Result<String, NoMemory> {
        if let Some(name) = spelled.strip_prefix('@')
            && let Some(bytes) = self.texts.bytes(name)
            && let Ok(text) = str::from_utf8(bytes)
        {
            return Ok(String::from_str(self.alloc, text)?);
        }
        let spaced = spelled.replace(self.alloc, "\\s", " ")?;
        Ok(spaced.replace(self.alloc, "\\e", "")?)
    }

    /// Has the row's text begin with a text that an earlier row gave.
    fn begin_with(&mut self, name: &str) -> Result<(), NoMemory> {
        if let Some(bytes) = self.texts.bytes(name)
            && let Ok(text) = str::from_utf8(bytes)
        {
            self.text.push_str(text)?;
        }
        Ok(())
    }

    /// Carries out the row that has begun.
    pub(crate) fn close(&mut self) -> Result<(), NoMemory> {
        let row = mem::replace(&mut self.row, Row::Nothing);
        let text = mem::replace(&mut self.text, String::new(self.alloc));
        let old = mem::replace(&mut self.old, String::new(self.alloc));
        match row {
            Row::Nothing => Ok(()),
            Row::Text(name) => self.texts.set(name.as_str(), text.as_bytes()),
            Row::Put(name) => self.world.put(name.as_str(), text.as_bytes()),
            Row::Change(name) => self.change(name.as_str(), old.as_str(), text.as_str()),
            Row::Ends(status) => {
                let as_told = self.world.ended(status.as_str(), text.as_bytes());
                self.note(as_told)
            }
            Row::EndsIn(status) => {
                let as_told = self.world.ended_in(status.as_str(), text.as_bytes());
                self.note(as_told)
            }
            Row::Begins(status) => {
                let as_told = self.world.began(status.as_str(), text.as_bytes());
                self.note(as_told)
            }
            Row::Gives(name) => self.world.turn(name, text.as_bytes()),
            Row::Holds(name) => {
                let as_told = self.world.bytes(name.as_str()) == Some(text.as_bytes());
                self.note(as_told)
            }
            Row::Unknown => self.note(false),
        }
    }

    /// Has another text stand in a file in place of one that stands there.
    fn change(&mut self, name: &str, old: &str, new: &str) -> Result<(), NoMemory> {
        let Some(bytes) = self.world.bytes(name) else {
            return self.note(false);
        };
        let Ok(text) = str::from_utf8(bytes) else {
            return self.note(false);
        };
        if !text.contains(old) {
            return self.note(false);
        }
        let changed = text.replace(self.alloc, old, new)?;
        self.world.put(name, changed.as_bytes())
    }

    /// Counts a row, and its line where it was not as told.
    fn note(&mut self, as_told: bool) -> Result<(), NoMemory> {
        self.count = self.count.saturating_add(1);
        if !as_told {
            self.others.push(self.begun)?;
        }
        Ok(())
    }
}
