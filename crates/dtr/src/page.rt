//! How wide what the program writes is.

use std::env;
use std::rt::Env;

/// The least width of a page.
pub(crate) const PAGE_MIN: usize = 40;

/// The width of a page where nothing tells it.
const PAGE_USUAL: usize = 80;

/// Which of the program's outputs are terminals.
#[derive(Clone, Copy, Drop)]
pub(crate) struct Terminals {
    /// The one of rows and tables.
    pub(crate) rows: bool,
    /// The one of messages.
    pub(crate) messages: bool,
}

/// How many columns the program's outputs have.
#[derive(Clone, Copy, Drop)]
pub(crate) struct Widths {
    /// The page of rows and tables.
    pub(crate) page: usize,
    /// Lines of messages.
    pub(crate) messages: usize,
}

/// The widths: the one that is given; else that of the terminal. What is no terminal has 80 columns for rows and tables, and no end of them for messages.
pub(crate) fn widths_of<R: Env + AllocGlobal>(
    rt: &R,
    given: Option<usize>,
    terminals: Terminals,
) -> Widths {
    if let Some(width) = given {
        return Widths {
            page: width,
            messages: width,
        };
    }
    let terminal = terminal_width(rt);
    Widths {
        page: if terminals.rows { terminal } else { PAGE_USUAL },
        messages: if terminals.messages {
            terminal
        } else {
            usize::MAX
        },
    }
}

/// The width of the terminal: the one that the environment's `COLUMNS` tells, and 80 where it tells none.
fn terminal_width<R: Env + AllocGlobal>(rt: &R) -> usize {
    match env::var(rt, "COLUMNS") {
        Ok(text) => match text.parse::<usize>() {
            Ok(width) => width.max(PAGE_MIN),
            Err(_) => PAGE_USUAL,
        },
        Err(_) => PAGE_USUAL,
    }
}
