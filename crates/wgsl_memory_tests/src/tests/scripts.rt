//! Scripts of tests: lines of a text, each with a call and what is answered.

use crate::tests::words::{Structures, Words};
use std::alloc::Global;
use std::fmt::{Debug, Display};
use std::process::Abort;
use std::sync::Arc;
use wgsl_session::Session;
use wgsl_store::{Layout, Store};
use wgsl_values::RefInstance;

/// What the calls of a script are made on. It begins with nothing in it.
#[derive(Drop)]
pub(super) struct Scene {
    pub alloc: Global,
    pub structures: Structures,
    /// A store, and the references that were made, by their numbers.
    pub store: Store,
    pub references: Vec<RefInstance>,
    pub session: Session,
    /// The last layout that was made, and the bytes that it is of.
    pub layout: Option<Arc<Layout>>,
    pub bytes: Vec<u8>,
}

impl Scene {
    fn new(alloc: Global) -> Scene {
        Scene {
            alloc,
            structures: Structures::new(alloc),
            store: Store::new(alloc),
            references: Vec::new(alloc),
            session: Session::new(alloc),
            layout: None,
            bytes: Vec::new(alloc),
        }
    }

    /// Makes the call of the words, and answers its answer as a text.
    fn answer(&mut self, rt: &impl Abort, words: &mut Words<'_>) -> String {
        match words.next() {
            "buffer" => self.of_buffers(rt, words),
            "layout" => self.of_layouts(rt, words),
            "store" => self.of_stores(rt, words),
            "session" => self.of_sessions(rt, words),
            other => panic!(rt; "{other} is no call"),
        }
    }
}

/// The text of an answer: the value's own, or the refusal as it is written.
pub(super) fn told<T: Display + Drop, E: Debug + Drop>(
    rt: &impl Abort,
    alloc: Global,
    answer: Result<T, E>,
) -> String {
    let text = match &answer {
        Ok(value) => value.to_string(alloc),
        Err(refusal) => format!(in alloc; "Err({refusal:?})"),
    };
    drop(answer);
    text.expect(rt, "memory")
}

/// As [`told`], with `None` where there is no value.
pub(super) fn told_if_some<T: Display + Drop, E: Debug + Drop>(
    rt: &impl Abort,
    alloc: Global,
    answer: Result<Option<T>, E>,
) -> String {
    let text = match &answer {
        Ok(Some(value)) => value.to_string(alloc),
        Ok(None) => String::from_str(alloc, "None"),
        Err(refusal) => format!(in alloc; "Err({refusal:?})"),
    };
    drop(answer);
    text.expect(rt, "memory")
}

/// The text of an answer as it is written.
pub(super) fn shown<T: Debug + Drop>(rt: &impl Abort, alloc: Global, answer: T) -> String {
    let text = format!(in alloc; "{answer:?}");
    drop(answer);
    text.expect(rt, "memory")
}

/// A scene with the structure of the declaration.
pub(super) fn scene_with(rt: &impl Abort, alloc: Global, declaration: &str) -> Scene {
    let mut scene = Scene::new(alloc);
    scene.structures.declare(rt, alloc, declaration);
    scene
}

/// Makes the calls of a script and asserts what they answer. The first line is its name; then a line is the declaration
/// of a structure, or a call with its answer behind an arrow.
fn assert_script(rt: &impl Abort, alloc: Global, script: &str) {
    let (name, lines) = script.split_once('\n').expect(rt, "lines");
    let mut scene = Scene::new(alloc);
    for line in lines.lines() {
        match line.split_once(" -> ") {
            Some((rest, wanted)) => {
                let answer = scene.answer(rt, &mut Words { rest });
                assert_eq!(rt; answer.as_str(), wanted, "{name}: {rest}");
            }
            None => {
                let declaration = line.strip_prefix("struct ").expect(rt, "an answer");
                scene.structures.declare(rt, alloc, declaration);
            }
        }
    }
    drop(scene);
}

/// Asserts what the calls of each of the scripts answer, which have an empty line between them.
pub(super) fn assert_scripts(rt: &impl Abort, alloc: Global, scripts: &str) {
    for script in scripts.trim().split("\n\n") {
        assert_script(rt, alloc, script);
    }
}
