//! Manifests on one line. What is as in the empty manifest isn't told; a condition stands between
//! `<` and `>`, a list between `{` and `}`.

use crate::shows::{Show, tell};
use vk_base::List;
use vk_expr::Expr;
use vk_manifest::read_manifest;
use vk_model::{Dependency, Feature, FeatureUse, Manifest, Override};
use vk_row_text::Reply;

// As many bytes as a manifest may have.
const MOST_BYTES: usize = 16_777_216;

// Puts a list at the end, if it has items, behind its title.
fn push_list<T: Show>(reply: &mut Reply, title: &str, items: &List<T>) {
    if items.is_empty() {
        return;
    }
    reply.push(title);
    for (n, item) in items.iter().enumerate() {
        reply.push(if n == 0 { "={" } else { "; " });
        item.show(reply);
    }
    reply.push("}");
}

fn push_condition(reply: &mut Reply, condition: &Expr) {
    if let Expr::Always = condition {
        return;
    }
    reply.push(" <");
    condition.show(reply);
    reply.push(">");
}

// Puts a value at the end, if there is one, behind its title.
fn push_some<T: Show>(reply: &mut Reply, title: &str, value: &Option<T>) {
    if let Some(value) = value {
        reply.push(title);
        value.show(reply);
    }
}

impl Show for FeatureUse {
    fn show(&self, reply: &mut Reply) {
        self.name.show(reply);
        push_condition(reply, &self.platform);
    }
}

impl Show for Dependency {
    fn show(&self, reply: &mut Reply) {
        self.name.show(reply);
        reply.push(if self.defaults { "" } else { " no-defaults" });
        push_list(reply, " features", &self.features);
        reply.push(if self.host { " host" } else { "" });
        push_condition(reply, &self.platform);
        push_some(reply, " >=", &self.minimum);
    }
}

impl Show for Feature {
    fn show(&self, reply: &mut Reply) {
        self.name.show(reply);
        push_list(reply, " deps", &self.dependencies);
        push_condition(reply, &self.supports);
    }
}

impl Show for Override {
    fn show(&self, reply: &mut Reply) {
        self.name.show(reply);
        reply.push("=");
        reply.push_ask(&self.ask);
    }
}

impl Show for Manifest {
    fn show(&self, reply: &mut Reply) {
        reply.push("ok");
        push_some(reply, " name=", &self.name);
        push_some(reply, " version=", &self.version);
        push_condition(reply, &self.supports);
        push_list(reply, " deps", &self.dependencies);
        push_list(reply, " defaults", &self.default_features);
        push_list(reply, " features", self.features.as_list());
        push_list(reply, " overrides", &self.overrides);
    }
}

fn tell_manifest(bytes: &List<u8>, is_root: bool, reply: &mut Reply) {
    if bytes.len() > MOST_BYTES {
        return reply.refuse();
    }
    let read = read_manifest(reply.alloc(), bytes.as_slice(), is_root);
    tell(read, reply);
}

/// - `root FILE`, `port FILE`: the manifest of a root or of a port, or the fault.
pub fn answer(is_root: bool, rest: &str, reply: &mut Reply) {
    let bytes = reply.bytes(rest);
    tell_manifest(&bytes, is_root, reply);
}
