//! How a row's run is made: the lines of a row that begin with a colon.
use crate::names::{bytes_of, loss_of, node_of, numbers_of, place_of, tear_of};
use crate::row::{Gift, GivenDisk, HeldFile, Kind, Over, Row, Tail};
use std::alloc::{AllocError, Global};

impl Row {
    /// Sets what a line's first word names by the words behind it. Whether that word is known and the others fit it.
    pub fn set(&mut self, alloc: Global, verb: &str, rest: &str) -> Result<bool, AllocError> {
        match verb {
            "words" => self.set_words(alloc, rest),
            "status" => Ok(self.set_status(rest)),
            "unended" => Ok(self.set_tail(Tail::Unended)),
            "padded" => Ok(match rest.parse::<usize>() {
                Ok(many) => self.set_tail(Tail::Padded(many)),
                Err(_) => false,
            }),
            "reads" => set_numbers(alloc, &mut self.setting.reads, rest),
            "writes" => set_numbers(alloc, &mut self.setting.writes, rest),
            "fails" | "fuse" | "file" => self.add_disk(alloc, verb, rest),
            "holds" => self.add_held(alloc, rest),
            "folders" => self.add_turns(rest),
            "stops" | "disks" | "tears" => self.set_table(verb, rest),
            "second" => Ok(self.set_second(rest)),
            "each" => self.set_each(rest),
            _ => Ok(false),
        }
    }

    fn set_words(&mut self, alloc: Global, words: &str) -> Result<bool, AllocError> {
        self.setting.words.clear();
        if words.is_empty() {
            return Ok(true);
        }
        for word in words.split(' ') {
            let text = if word == "''" { "" } else { word };
            self.setting.words.push(String::from_str(alloc, text)?)?;
        }
        Ok(true)
    }

    fn set_status(&mut self, word: &str) -> bool {
        match word.parse::<u8>() {
            Ok(status) => {
                self.ending.status = status;
                true
            }
            Err(_) => false,
        }
    }

    fn set_tail(&mut self, tail: Tail) -> bool {
        self.setting.tail = tail;
        true
    }

    fn add_disk(&mut self, alloc: Global, verb: &str, words: &str) -> Result<bool, AllocError> {
        let (place, rest) = words.split_once(' ').unwrap_or((words, ""));
        let Some(place) = place_of(place) else {
            return Ok(false);
        };
        let gift = match verb {
            "file" => Some(Gift::File),
            "fuse" => fuse_of(rest),
            _ => numbers_of(alloc, rest)?.map(Gift::Fails),
        };
        match gift {
            Some(gift) => {
                self.setting.disks.push(GivenDisk { place, gift })?;
                Ok(true)
            }
            None => Ok(false),
        }
    }

    fn add_held(&mut self, alloc: Global, words: &str) -> Result<bool, AllocError> {
        let Some((place, rest)) = words.split_once(' ') else {
            return Ok(false);
        };
        let (file, hex) = rest.split_once(' ').unwrap_or((rest, ""));
        let (Some(place), Ok(file)) = (place_of(place), file.parse::<u32>()) else {
            return Ok(false);
        };
        match bytes_of(alloc, hex)? {
            Some(bytes) => {
                self.ending.held.push(HeldFile { place, file, bytes })?;
                Ok(true)
            }
            None => Ok(false),
        }
    }

    fn set_table(&mut self, verb: &str, words: &str) -> Result<bool, AllocError> {
        for word in words.split(' ') {
            if !self.add_to_table(verb, word)? {
                return Ok(false);
            }
        }
        Ok(true)
    }

    fn add_to_table(&mut self, verb: &str, word: &str) -> Result<bool, AllocError> {
        match verb {
            "stops" => match node_of(word) {
                Some(node) => self.table.nodes.push(node)?,
                None => return Ok(false),
            },
            "disks" => match word.parse::<u8>() {
                Ok(disk) => self.table.disks.push(disk)?,
                Err(_) => return Ok(false),
            },
            _ => match tear_of(word) {
                Some(tear) => self.table.tears.push(tear)?,
                None => return Ok(false),
            },
        }
        Ok(true)
    }

    // The row is performed over folders too, with each of these losses of power.
    fn add_turns(&mut self, words: &str) -> Result<bool, AllocError> {
        for word in words.split(' ') {
            match loss_of(word) {
                Some(loss) => self.setting.turns.push(Over::Folders(loss))?,
                None => return Ok(false),
            }
        }
        Ok(true)
    }

    fn set_second(&mut self, word: &str) -> bool {
        match word.parse::<u8>() {
            Ok(disk) => {
                self.table.second = Some(disk);
                true
            }
            Err(_) => false,
        }
    }

    fn set_each(&mut self, words: &str) -> Result<bool, AllocError> {
        if words == "write fails" {
            self.kind = Kind::EachWrite;
            return Ok(true);
        }
        let Some(places) = words.strip_prefix("call fails ") else {
            return Ok(false);
        };
        self.kind = Kind::EachCall;
        for word in places.split(' ') {
            match place_of(word) {
                Some(place) => self.table.failing.push(place)?,
                None => return Ok(false),
            }
        }
        Ok(true)
    }
}

fn fuse_of(words: &str) -> Option<Gift> {
    let (calls, tear) = words.split_once(' ')?;
    let calls = calls.parse::<u32>().ok()?;
    let tear = tear_of(tear)?;
    Some(Gift::Fuse { calls, tear })
}

fn set_numbers(alloc: Global, list: &mut Vec<u64>, words: &str) -> Result<bool, AllocError> {
    match numbers_of(alloc, words)? {
        Some(numbers) => {
            *list = numbers;
            Ok(true)
        }
        None => Ok(false),
    }
}
