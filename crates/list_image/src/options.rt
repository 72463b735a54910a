// What a command line asks for.
use listing::Layers;
use std::alloc::{AllocError, Global};

// The words of a command line, sorted. Names stand one on a line.
#[derive(Drop)]
pub struct Options {
    pub layers: Layers,
    pub go_on: bool,
    pub symbols: Vec<u8>,
    pub members: Vec<u8>,
    pub dir: Option<String>,
    pub pag: Option<String>,
    // Whether each word was an option or one of the two files.
    pub fits: bool,
}

impl Options {
    // No word yet.
    pub fn new(heap: Global) -> Options {
        Options {
            layers: Layers::default(),
            go_on: false,
            symbols: Vec::new(heap),
            members: Vec::new(heap),
            dir: None,
            pag: None,
            fits: true,
        }
    }

    // One more word.
    pub fn take(&mut self, word: String) -> Result<(), AllocError> {
        let text = word.as_str();
        match text {
            "--window" => self.layers.window = true,
            "--quota" => self.layers.quota = true,
            "--cache" => self.layers.cache = true,
            "--go-on" => self.go_on = true,
            _ => {
                if let Some(name) = text.strip_prefix("--symbol=") {
                    add_line(&mut self.symbols, name)?;
                } else if let Some(name) = text.strip_prefix("--member=") {
                    add_line(&mut self.members, name)?;
                } else if text.starts_with("--") {
                    self.fits = false;
                } else {
                    self.take_file(word);
                }
            }
        }
        Ok(())
    }

    // The first file is the directory, and the second has the pages.
    fn take_file(&mut self, path: String) {
        if self.dir.is_none() {
            self.dir = Some(path);
        } else if self.pag.is_none() {
            self.pag = Some(path);
        } else {
            self.fits = false;
        }
    }
}

fn add_line(lines: &mut Vec<u8>, name: &str) -> Result<(), AllocError> {
    lines.extend_from_slice(name.as_bytes())?;
    lines.push(b'\n')?;
    Ok(())
}
