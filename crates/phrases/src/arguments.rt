// What the words behind the program's name ask for: `--all`, `--states`, `--names` with a file of names, a net, a log, and a last state. The
// words are taken one by one, so that none but the one at hand has to be held. A file is told by the number of its argument.
ghost use Rattle.std.specs.Prelude.{◌≡◌};
ghost use Rattle.phrases.specs.Arguments.{option_takes, file_takes, takes, completed};

const ALL: &[u8] = b"--all";

const STATES: &[u8] = b"--states";

const NAMES: &[u8] = b"--names";

// The file of names: none is asked for, or it is the next word, or it is given.
#[derive(Clone, Copy, Default)]
pub enum NamesFile {
    #[default]
    Unasked,
    Awaited,
    Given(usize),
}

// What the words so far ask for.
#[derive(Clone, Copy, Default)]
pub struct Asked {
    pub all: bool,
    pub states: bool,
    pub names: NamesFile,
    pub net: Option<usize>,
    pub log: Option<usize>,
    pub last: Option<usize>,
}

// What all words ask for.
#[derive(Clone, Copy)]
pub struct Request {
    pub all: bool,
    pub states: bool,
    pub names: Option<usize>,
    pub net: usize,
    pub log: usize,
    pub last: Option<usize>,
}

// Why the words are not taken.
#[derive(Clone, Copy)]
pub enum Misuse {
    NoSuchOption,
    NamesTwice,
    TooManyFiles,
    FileMissing,
}

impl Asked {
    // One word more, whose number is i. Behind `--names` any word is a file, even one that begins with `-`.
    pub fn take(self, i: usize, word: &[u8]) -> Result<Asked, Misuse>
        ensures { result ≡ takes self i word.now }
    {
        if let NamesFile::Awaited = self.names {
            Ok(Asked {
                names: NamesFile::Given(i),
                ..self
            })
        } else if word.starts_with(b"-") {
            self.take_option(word)
        } else {
            self.take_file(i)
        }
    }

    // A word that begins with `-`.
    fn take_option(self, word: &[u8]) -> Result<Asked, Misuse>
        ensures { result ≡ option_takes self word.now }
    {
        if word == ALL {
            Ok(Asked { all: true, ..self })
        } else if word == STATES {
            Ok(Asked {
                states: true,
                ..self
            })
        } else if word != NAMES {
            Err(Misuse::NoSuchOption)
        } else if let NamesFile::Unasked = self.names {
            Ok(Asked {
                names: NamesFile::Awaited,
                ..self
            })
        } else {
            Err(Misuse::NamesTwice)
        }
    }

    // The next of the net, the log and the last state.
    fn take_file(self, i: usize) -> Result<Asked, Misuse>
        ensures { result ≡ file_takes self i }
    {
        match self {
            Asked { net: None, .. } => Ok(Asked {
                net: Some(i),
                ..self
            }),
            Asked { log: None, .. } => Ok(Asked {
                log: Some(i),
                ..self
            }),
            Asked { last: None, .. } => Ok(Asked {
                last: Some(i),
                ..self
            }),
            _ => Err(Misuse::TooManyFiles),
        }
    }

    // Nothing is missing.
    pub fn complete(self) -> Result<Request, Misuse>
        ensures { result ≡ completed self }
    {
        let names = match self.names {
            NamesFile::Unasked => None,
            NamesFile::Awaited => return Err(Misuse::FileMissing),
            NamesFile::Given(i) => Some(i),
        };
        Ok(Request {
            all: self.all,
            states: self.states,
            names,
            net: self.net.ok_or(Misuse::FileMissing)?,
            log: self.log.ok_or(Misuse::FileMissing)?,
            last: self.last,
        })
    }
}
