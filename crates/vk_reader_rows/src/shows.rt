//! What has a form on a line.

use std::cmp::Ordering;
use vk_base::{FeatureName, List, PortName, SharedText, Text, TreePath, TripletName, Unread};
use vk_expr::{Expr, print};
use vk_row_text::Reply;
use vk_version::{Ask, Version};

/// What has a form on a line.
pub trait Show {
    /// Puts the form at the end.
    fn show(&self, reply: &mut Reply);
}

/// Tells a value, and `nothing` where its form is empty.
pub fn tell_value<T: Show>(value: &T, reply: &mut Reply) {
    value.show(reply);
    if reply.is_empty() {
        reply.push("nothing");
    }
}

/// Tells why there is no value.
pub fn refused<F: Show + Drop>(stop: Unread<F>, reply: &mut Reply) {
    match stop {
        Unread::Fault(fault) => fault.show(reply),
        Unread::Memory(memory) => reply.lack(memory),
    }
}

/// Tells what a reading answers: the value, or the fault.
pub fn tell<T: Show + Drop, F: Show + Drop>(reading: Result<T, Unread<F>>, reply: &mut Reply) {
    match reading {
        Ok(value) => tell_value(&value, reply),
        Err(stop) => refused(stop, reply),
    }
}

/// Tells whether there is a reading, or the fault.
pub fn tell_reads<T: Drop, F: Show + Drop>(reading: Result<T, Unread<F>>, reply: &mut Reply) {
    match reading {
        Ok(_) => reply.push("reads"),
        Err(stop) => refused(stop, reply),
    }
}

/// Tells an order.
pub fn tell_order(order: Option<Ordering>, reply: &mut Reply) {
    reply.push(match order {
        Some(Ordering::Less) => "less",
        Some(Ordering::Equal) => "equal",
        Some(Ordering::Greater) => "greater",
        None => "unrelated",
    });
}

/// Tells a number, or `none`.
pub fn tell_or_none(number: Option<u64>, reply: &mut Reply) {
    match number {
        Some(number) => reply.push_number(number),
        None => reply.push("none"),
    }
}

impl Show for u8 {
    fn show(&self, reply: &mut Reply) {
        reply.push_number(u64::from(*self));
    }
}

impl Show for u32 {
    fn show(&self, reply: &mut Reply) {
        reply.push_number(u64::from(*self));
    }
}

/// Puts items at the end, with blanks between.
pub fn show_each<T: Show>(items: &[T], reply: &mut Reply) {
    for (n, item) in items.iter().enumerate() {
        if n > 0 {
            reply.push(" ");
        }
        item.show(reply);
    }
}

impl<T: Show> Show for List<T> {
    fn show(&self, reply: &mut Reply) {
        show_each(self.as_slice(), reply);
    }
}

impl<T: Show> Show for Option<T> {
    fn show(&self, reply: &mut Reply) {
        if let Some(value) = self {
            value.show(reply);
        }
    }
}

impl Show for Text {
    fn show(&self, reply: &mut Reply) {
        reply.push_token(self.as_bytes());
    }
}

impl Show for SharedText {
    fn show(&self, reply: &mut Reply) {
        reply.push_token(self.as_bytes());
    }
}

impl Show for PortName {
    fn show(&self, reply: &mut Reply) {
        reply.push(self.as_str());
    }
}

impl Show for TripletName {
    fn show(&self, reply: &mut Reply) {
        reply.push(self.as_str());
    }
}

impl Show for FeatureName {
    fn show(&self, reply: &mut Reply) {
        reply.push(self.as_str());
    }
}

impl Show for TreePath {
    fn show(&self, reply: &mut Reply) {
        reply.push_path(self);
    }
}

impl Show for Expr {
    fn show(&self, reply: &mut Reply) {
        let printed = print(reply.alloc(), self);
        reply.push_made(printed);
    }
}

impl Show for Ask {
    fn show(&self, reply: &mut Reply) {
        reply.push_ask(self);
    }
}

impl Show for Version {
    fn show(&self, reply: &mut Reply) {
        reply.push_version(self);
    }
}
