// The words of a script's lines, and what they ask for.
use crate::refusal::Refusal;
use bintree::point::Point;
use std::alloc::Global;
use std::str::FromStr;

// What a line asks for: a call on the library, and its arguments as the script wrote them.
#[derive(Clone, Copy)]
pub enum Request<'a> {
    Triangle { order: u8, number: u32 },
    Draft { order: u8 },
    Set { point: Point, height: u16 },
    Measure,
    Carve { point: Point, height: u16 },
    Load { path: &'a str },
    Reset { order: u8 },
    Split { triangle: u32 },
    Merge { triangle: u32 },
    Show,
    List,
}

// A whole number in decimal digits alone, with no sign.
fn number<T: FromStr>(word: &str) -> Option<T>
where
    T::Err: Drop,
{
    if !word.bytes().all(|b| b.is_ascii_digit()) {
        return None;
    }
    word.parse().ok()
}

fn point(x: &str, y: &str) -> Option<Point> {
    Some(Point {
        x: number(x)?,
        y: number(y)?,
    })
}

// What the words of a line ask for; none where they are not understood.
fn asked<'a>(words: &[&'a str]) -> Option<Request<'a>> {
    let request = match *words {
        ["triangle", order, i] => Request::Triangle {
            order: number(order)?,
            number: number(i)?,
        },
        ["draft", order] => Request::Draft {
            order: number(order)?,
        },
        ["set", x, y, z] => Request::Set {
            point: point(x, y)?,
            height: number(z)?,
        },
        ["measure"] => Request::Measure,
        ["carve", x, y, z] => Request::Carve {
            point: point(x, y)?,
            height: number(z)?,
        },
        ["load", path] => Request::Load { path },
        ["reset", order] => Request::Reset {
            order: number(order)?,
        },
        ["split", i] => Request::Split {
            triangle: number(i)?,
        },
        ["merge", i] => Request::Merge {
            triangle: number(i)?,
        },
        ["show"] => Request::Show,
        ["list"] => Request::List,
        _ => return None,
    };
    Some(request)
}

// Reads a line, of this number in its script: words parted by spaces or tabs. An empty line asks for nothing, and neither does a comment.
pub(crate) fn read<'a>(
    heap: Global,
    number: usize,
    line: &'a str,
) -> Result<Option<Request<'a>>, Refusal<'a>> {
    let words: Vec<&str> = line
        .split([' ', '\t'])
        .filter(|word| !word.is_empty())
        .collect(heap)?;
    if words.first().is_none_or(|word| word.starts_with('#')) {
        return Ok(None);
    }
    asked(&words)
        .ok_or(Refusal::NotUnderstood(number))
        .map(Some)
}
