//! Elements of a picture in SVG, as text.
ghost use Rattle.std.specs.Prelude.{◌≤◌};

use std::alloc::{AllocError, Global};

/// A picture that is being written. Lengths are hundredths of a pixel. If memory runs out,
/// something is left out, and `end` fails.
#[derive(Drop)]
pub(crate) struct Svg {
    alloc: Global,
    text: String,
    failed: bool,
}

/// A rectangle by its corner, its width and its height.
#[derive(Clone, Copy)]
pub(crate) struct Area {
    pub x: u64,
    pub y: u64,
    pub width: u64,
    pub height: u64,
}

impl Svg {
    /// A picture of a size in pixels.
    pub(crate) fn new(alloc: Global, width: u64, height: u64) -> Svg {
        let mut svg = Svg {
            alloc,
            text: String::new(alloc),
            failed: false,
        };
        let front = format!(in alloc;
            "<svg xmlns=\"http://www.w3.org/2000/svg\" width=\"{width}\" height=\"{height}\" viewBox=\"0 0 {width} {height}\" font-family=\"sans-serif\" font-size=\"12\">\n<rect width=\"{width}\" height=\"{height}\" fill=\"#ffffff\"/>\n"
        );
        svg.add_made(front);
        svg
    }

    /// The whole text of the picture.
    pub(crate) fn end(mut self) -> Result<String, AllocError> {
        self.add("</svg>\n");
        if self.failed {
            return Err(AllocError);
        }
        Ok(self.text)
    }

    /// A text that was made for the picture.
    pub(crate) fn made(&mut self, text: Result<String, AllocError>) -> String {
        match text {
            Ok(text) => text,
            Err(_) => {
                self.failed = true;
                String::new(self.alloc)
            }
        }
    }

    /// A filled rectangle, with a text for a pointer that rests on it.
    pub(crate) fn rect(&mut self, area: Area, fill: &str, told: &str) {
        self.add("<rect");
        self.length("x", area.x);
        self.length("y", area.y);
        self.length("width", area.width);
        self.length("height", area.height);
        self.add(" fill=\"");
        self.add(fill);
        self.add("\"><title>");
        self.escaped(told);
        self.add("</title></rect>\n");
    }

    /// The frame of a rectangle.
    pub(crate) fn frame(&mut self, area: Area) {
        self.add("<rect");
        self.length("x", area.x);
        self.length("y", area.y);
        self.length("width", area.width);
        self.length("height", area.height);
        self.add(" fill=\"none\" stroke=\"#555555\" stroke-width=\"0.5\"/>\n");
    }

    /// A text that begins at a place; `anchor` is `start`, `middle` or `end`.
    pub(crate) fn label(&mut self, x: u64, y: u64, anchor: &str, text: &str) {
        self.add("<text");
        self.length("x", x);
        self.length("y", y);
        self.add(" text-anchor=\"");
        self.add(anchor);
        self.add("\">");
        self.escaped(text);
        self.add("</text>\n");
    }

    fn length(&mut self, name: &str, value: u64) {
        let (whole, part) = (value / 100, value % 100);
        let text = format!(in self.alloc; " {name}=\"{whole}.{part:02}\"");
        self.add_made(text);
    }

    fn escaped(&mut self, text: &str) {
        for c in text.chars() {
            match c {
                '<' => self.add("&lt;"),
                '>' => self.add("&gt;"),
                '&' => self.add("&amp;"),
                '"' => self.add("&quot;"),
                _ if c < ' ' => self.add("?"),
                _ => self.add_char(c),
            }
        }
    }

    fn add_made(&mut self, text: Result<String, AllocError>) {
        let text = self.made(text);
        self.add(text.as_str());
    }

    fn add(&mut self, text: &str) {
        if self.text.push_str(text).is_err() {
            self.failed = true;
        }
    }

    fn add_char(&mut self, c: char) {
        if self.text.push(c).is_err() {
            self.failed = true;
        }
    }
}

/// The part of a width that a part of a whole takes.
pub(crate) fn share(part: u64, whole: u64, width: u64) -> u64
    ensures within { result ≤ width }
{
    let taken = u128::from(part) * u128::from(width) / u128::from(whole.max(1));
    u64::try_from(taken).unwrap_or(width).min(width)
}

/// A size with its unit, as `1.5 MB`.
pub(crate) fn size_text(alloc: Global, bytes: u64) -> Result<String, AllocError> {
    for (unit, name) in [(1_000_000_000, "GB"), (1_000_000, "MB"), (1_000, "kB")] {
        if bytes >= unit {
            let (whole, tenth) = (bytes / unit, bytes % unit * 10 / unit);
            return format!(in alloc; "{whole}.{tenth} {name}");
        }
    }
    format!(in alloc; "{bytes} bytes")
}
