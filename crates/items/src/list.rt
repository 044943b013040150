ghost use Rattle.std.specs.Prelude.{◌≡◌, length};
ghost use Rattle.std.specs.Iterator.{item_count};
ghost use Rattle.items.specs.Unread.{unread, unread_items, GivesItem};

use crate::run::{is_blank, split_run};

// Reads the items of a list value one after the other.
#[derive(Clone, Copy)]
pub struct Items<'a> {
    rest: &'a [u8],
}

impl<'a> Items<'a> {
    pub fn of(value: &'a [u8]) -> Items<'a>
        ensures { unread result ≡ value.now }
    {
        Items { rest: value }
    }

    // How many bytes stand behind the items that were read.
    pub fn left(&self) -> usize
        ensures { result ≡ length (unread self.now) }
    {
        self.rest.len()
    }
}

impl<'a> Iterator for Items<'a> {
    type Item = &'a [u8];

    ghost next_gives = { GivesItem };

    ghost remaining = { item_count unread_items };

    fn next(&mut self) -> Option<&'a [u8]> {
        let (_, from) = split_run(self.rest, is_blank);
        let (item, rest) = split_run(from, |b| !is_blank(b));
        self.rest = rest;
        if item.is_empty() {
            return None;
        }
        Some(item)
    }
}
