//! The rows, each a question and its words:
//! - `group TITLE`, `case TITLE`: a root that asks for nothing, and no pages;
//! - `root FILE`, `target NAME FILE`, `host NAME FILE`, `features NAME ..`, `no-defaults` and
//!   `most N`: what a plan is made under; the triplets are the stock ones where no row says;
//! - `port NAME GIVEN`: a page; `at FILE`, `bad VERSION WRONG`: a version more of that page;
//! - `fails N ..`: the catalogue fails at these calls, counted from 1;
//! - `off`, `close`, `plan`: what is off, what is required, and what that comes to;
//! - `check REPORT`, `certify REPORT`: whether a report is the defined one, and whether its reasons
//!   are a certificate.

use crate::checks::{tell_certificate, tell_check};
use crate::closings::{off_of, tell_closure, tell_off};
use crate::outcomes::tell_plan;
use crate::pages::{page_of, push_row, put_page};
use crate::settings::{set, stock_setting};
use std::alloc::Global;
use std::mem::replace;
use vk_base::{List, Memory, Unread};
use vk_catalogue::{MemCatalogue, Page};
use vk_model::Setting;
use vk_row_text::{Answering, NoRow, Reply, cut, number_of};

/// A setting, the pages of a catalogue, and the page that rows add to.
#[derive(Drop)]
pub struct Session {
    setting: Setting,
    pages: MemCatalogue,
    page: Option<Page>,
}

fn fail_at(alloc: Global, pages: &mut MemCatalogue, row: &str) -> Result<(), Unread<NoRow>> {
    let mut calls = List::new(alloc);
    for word in row.split(' ') {
        calls.push(number_of(word)?)?;
    }
    Ok(pages.fail_at(calls.as_slice())?)
}

fn done(reply: &mut Reply, done: Result<(), Unread<NoRow>>) {
    reply.silence();
    reply.needed(done);
}

impl Session {
    /// A root that asks for nothing, and no pages.
    pub fn new(alloc: Global) -> Result<Session, Unread<NoRow>> {
        let setting = stock_setting(alloc)?;
        match MemCatalogue::new(alloc) {
            Ok(pages) => Ok(Session {
                setting,
                pages,
                page: None,
            }),
            Err(memory) => {
                drop(setting);
                Err(Unread::Memory(memory))
            }
        }
    }

    fn restart(&mut self, alloc: Global) -> Result<(), Unread<NoRow>> {
        drop(replace(&mut self.setting, stock_setting(alloc)?));
        drop(replace(&mut self.pages, MemCatalogue::new(alloc)?));
        drop(self.page.take());
        Ok(())
    }

    // Puts the page that rows added to, if there is one.
    fn put(&mut self) -> Result<(), Unread<NoRow>> {
        match self.page.take() {
            Some(page) => put_page(&mut self.pages, page),
            None => Ok(()),
        }
    }

    fn begin(&mut self, row: &str, reply: &mut Reply) {
        let put = self.put();
        done(reply, put);
        drop(replace(&mut self.page, page_of(row, reply)));
        if self.page.is_none() {
            reply.refuse();
        }
    }

    fn add(&mut self, what: &str, row: &str, reply: &mut Reply) {
        reply.silence();
        match &mut self.page {
            Some(page) => push_row(page, what, row, reply),
            None => reply.refuse(),
        }
    }

    // Makes the off list of the setting.
    fn settle(&mut self, alloc: Global) -> Result<(), Memory> {
        self.setting.off = off_of(alloc, &self.setting)?;
        Ok(())
    }

    // Puts the last page, and makes the off list.
    fn end(&mut self, reply: &mut Reply) {
        let put = self.put();
        reply.needed(put);
        if let Err(memory) = self.settle(reply.alloc()) {
            reply.lack(memory);
        }
    }

    fn judge(&mut self, question: &str, row: &str, reply: &mut Reply) {
        self.end(reply);
        let report = reply.bytes(row);
        match question {
            "check" => tell_check(report.as_slice(), &mut self.pages, &self.setting, reply),
            _ => tell_certificate(report.as_slice(), &mut self.pages, &self.setting, reply),
        }
    }

    fn ask(&mut self, question: &str, reply: &mut Reply) {
        self.end(reply);
        match question {
            "off" => tell_off(&self.setting.off, reply),
            "plan" => tell_plan(&mut self.pages, &self.setting, reply),
            _ => tell_closure(&mut self.pages, &self.setting, reply),
        }
    }
}

impl Answering for Session {
    fn answer(&mut self, row: &str, reply: &mut Reply) {
        let (question, rest) = cut(row);
        match question {
            "group" | "case" => done(reply, self.restart(reply.alloc())),
            "fails" => done(reply, fail_at(reply.alloc(), &mut self.pages, rest)),
            "port" => self.begin(rest, reply),
            "at" | "bad" => self.add(question, rest, reply),
            "off" | "close" | "plan" => self.ask(question, reply),
            "check" | "certify" => self.judge(question, rest, reply),
            _ => set(&mut self.setting, question, rest, reply),
        }
    }
}
