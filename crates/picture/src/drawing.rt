use crate::gathering::{Edge, Node, Tree};
use rules::step::Step;
use std::alloc::AllocError;
use std::fmt;
use std::str::from_utf8;

// Whether a byte is drawn as the character that it is.
fn is_plain(byte: u8) -> bool {
    matches!(byte, 32..=126) && !matches!(byte, b'"' | b'\'' | b'\\')
}

// A byte as a printable character, else in two hexadecimal digits. The closing 0 is a sign that no byte has.
#[derive(Clone, Copy)]
struct Byte(u8);

impl fmt::Display for Byte {
    fn fmt<W: fmt::Write>(&self, f: &mut fmt::Formatter<W>) -> fmt::Result {
        let byte = self.0;
        match byte {
            0 => f.write_str("·"),
            b'"' => f.write_str("\\\""),
            b'\'' => f.write_str("\\'"),
            b'\\' => f.write_str("\\\\"),
            32..=126 => f.write_char(char::from(byte)),
            _ => write!(f, "\\x{byte:02x}"),
        }
    }
}

#[derive(Clone, Copy)]
struct Label<'a>(&'a [u8]);

impl fmt::Display for Label<'_> {
    fn fmt<W: fmt::Write>(&self, f: &mut fmt::Formatter<W>) -> fmt::Result {
        f.write_str("\"")?;
        // Bytes that are drawn as they are go together: one by one, long labels take longer than all else that is drawn.
        for run in self.0.chunk_by(|a, b| is_plain(*a) && is_plain(*b)) {
            if run.len() > 1
                && let Ok(text) = from_utf8(run)
            {
                f.write_str(text)?;
                continue;
            }
            for byte in run {
                Byte(*byte).fmt(f)?;
            }
        }
        f.write_str("\"")
    }
}

// An edge as its byte, its place and its symbol.
impl fmt::Display for Edge {
    fn fmt<W: fmt::Write>(&self, f: &mut fmt::Formatter<W>) -> fmt::Result {
        let symbol = self.symbol;
        if self.is_step() {
            return write!(f, "step = {symbol}");
        }
        write!(f, "('{}', {}) = {symbol}", Byte(self.byte()), self.place())
    }
}

// What a node says of itself: its number, its edge, its label, and what its row holds. The steps above its edge pass so
// many bytes of the label to which the edge belongs.
#[derive(Clone, Copy)]
struct Line<'a> {
    number: u32,
    node: &'a Node,
    passed: usize,
}

impl fmt::Display for Line<'_> {
    fn fmt<W: fmt::Write>(&self, f: &mut fmt::Formatter<W>) -> fmt::Result {
        let number = self.number;
        write!(f, "{number} ")?;
        let Some(label) = &self.node.label else {
            return write!(f, "no tag was entered");
        };
        if let Some(edge) = self.node.edge {
            write!(f, "{edge}")?;
            if self.passed > 0 && !edge.is_step() {
                write!(f, ", offset {}", edge.place().saturating_add(self.passed))?;
            }
            write!(f, " ")?;
        }
        write!(f, "{}", Label(label))?;
        match self.node.amount {
            Some(amount) => write!(f, " holds {amount}"),
            None if self.node.is_step() => write!(f, " step node"),
            None => write!(f, " struck"),
        }
    }
}

// A node that is still to be drawn, how many nodes stand above it, and how many bytes the steps above its edge pass.
#[derive(Clone, Copy)]
struct Waiting {
    number: u32,
    depth: usize,
    passed: usize,
}

// The lines in front of a node, given for it and each node above it but node 0 whether a sibling follows.
fn put_branches(out: &mut String, follows: &[bool]) -> Result<(), AllocError> {
    let [above @ .., own] = follows else {
        return Ok(());
    };
    for follows in above {
        out.push_str(if *follows { "│  " } else { "   " })?;
    }
    out.push_str(if *own { "├─ " } else { "└─ " })
}

// Draws node 0 and all that hangs below it, each node before those below it. No recursion, which would want stack for each
// level; each turn draws a node, so that there are as many turns as nodes.
fn put_nodes(out: &mut String, nodes: &[Node]) -> Result<(), AllocError> {
    let heap = *out.allocator();
    let mut follows: Vec<bool> = Vec::new(heap);
    let mut waiting = vec![in heap;
        Waiting {
            number: 0,
            depth: 0,
            passed: 0
        },
    ]?;
    for _ in nodes {
        let Some(
            Waiting {
                number,
                depth,
                passed,
            },
        ) = waiting.pop()
        else {
            break;
        };
        let Some(node) = nodes.get(number as usize) else {
            continue;
        };
        if let Some(next) = node.next {
            waiting.push(Waiting {
                number: next,
                depth,
                passed,
            })?;
        }
        if depth > 0 {
            follows.truncate(depth - 1);
            follows.push(node.next.is_some())?;
        }
        put_branches(out, &follows)?;
        writeln!(
            out,
            "{}",
            Line {
                number,
                node,
                passed
            }
        )?;
        if let Some(first) = node.first {
            let passed = if node.is_step() {
                passed.saturating_add(Step::By32.length())
            } else {
                0
            };
            waiting.push(Waiting {
                number: first,
                depth: depth.saturating_add(1),
                passed,
            })?;
        }
    }
    Ok(())
}

pub(crate) fn put_tree(out: &mut String, tree: &Tree) -> Result<(), AllocError> {
    let count = tree.nodes.len();
    let bytes = tree.label_bytes;
    writeln!(out, "The tree: {count} nodes, {bytes} label bytes.")?;
    writeln!(
        out,
        "An edge is ('byte', place) = symbol, and past steps its whole offset; · is the closing 0.\n"
    )?;
    put_nodes(out, &tree.nodes)?;
    out.push('\n')
}
