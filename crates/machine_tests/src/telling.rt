//! Stories are told: machines are asked, and the answers are compared.
use super::draft::Draft;
use super::scene::{Pace, Scene, as_text};
use super::story::{
    Item, Place, Repeated, first_line, heading, is_heading, is_silent, parted, push, replaced,
};
use std::process::Abort;
use xk_base::BootError;

// Compares what a machine tells with an item.
fn meet<R: Abort + AllocGlobal>(
    rt: &R,
    scene: &mut Scene,
    place: &Place<'_>,
    text: &str,
    pace: &Pace,
) {
    let item = Item::of(text);
    let told = scene.told(rt, place, &item, pace);
    if !item.wants(told.as_str()) {
        let Place { story, line } = place;
        panic!(rt; "{story}, line {line}: wanted {text}, came {told}");
    }
}

// Compares items that stand with `, ` between them.
fn meet_items<R: Abort + AllocGlobal>(
    rt: &R,
    scene: &mut Scene,
    place: &Place<'_>,
    items: &str,
    pace: &Pace,
) {
    for item in items.split(", ") {
        meet(rt, scene, place, item, pace);
    }
}

// The text with a number for the `N` of each such mark, which is `N` and what stands behind it.
fn with_number<R: Abort + AllocGlobal>(rt: &R, text: &str, n: u64, mark: &str) -> String {
    let mut number = as_text(rt, &n);
    push(rt, &mut number, parted(mark, "N").1);
    replaced(rt, text, mark, number.as_str())
}

// Compares the items of a line.
fn meet_line<R: Abort + AllocGlobal>(
    rt: &R,
    scene: &mut Scene,
    place: &Place<'_>,
    line: &str,
    pace: &Pace,
) {
    let Repeated { first, last, text } = place.repetition(rt, line);
    for n in first..=last {
        let items = with_number(rt, text, n, "N");
        meet_items(rt, scene, place, items.as_str(), pace);
    }
}

/// Tells what stands below the headings `events` and `calls` of the story of this name.
pub(super) fn tell<R: Abort + AllocGlobal>(rt: &R, scene: &mut Scene, story: &str, text: &str) {
    let mut pace = Pace::Untold;
    for (line, text) in text.lines().enumerate() {
        if is_heading(text) {
            pace = Pace::of(text);
        } else if pace.is_told() && !is_silent(text) {
            meet_line(rt, scene, &Place { story, line }, text.trim(), &pace);
        }
    }
}

// The machine of the story of this name. The first line of its text says nothing.
fn draft<R: Abort + AllocGlobal>(rt: &R, group: &str, story: &str, text: &str) -> Draft {
    let mut draft = Draft {
        frames: 16,
        trace: 0,
        programs: Vec::new(rt.alloc()),
    };
    for (line, heading) in text.lines().enumerate().skip(1) {
        if is_heading(heading) {
            draft.heading(rt, &Place { story, line }, group, text, heading);
        }
    }
    draft
}

// Compares why no machine boots with what a story says.
fn meet_refusal<R: Abort + AllocGlobal>(rt: &R, text: &str, error: BootError) {
    let refusal = as_text(rt, &error);
    if heading(text, "\nrefused ") != Some(refusal.as_str()) {
        panic!(rt; "{text}: the machine is refused, {refusal}");
    }
}

// Makes sure that a story wants a machine.
fn meet_machine<R: Abort>(rt: &R, text: &str) {
    if heading(text, "\nrefused ").is_some() {
        panic!(rt; "{text}: the machine boots");
    }
}

// Tells a story.
fn tell_story<R: Abort + AllocGlobal>(rt: &R, group: &str, text: &str) {
    let story = first_line(text);
    match Scene::new(rt, draft(rt, group, story, text)) {
        Ok(mut scene) => {
            meet_machine(rt, text);
            tell(rt, &mut scene, story, text);
        }
        Err(error) => meet_refusal(rt, text, error),
    }
}

// Tells a story for each of its numbers.
fn tell_numbered<R: Abort + AllocGlobal>(rt: &R, group: &str, text: &str, range: &str) {
    let place = Place {
        story: first_line(text),
        line: 1,
    };
    let Repeated { first, last, .. } = place.numbered(rt, range);
    for n in first..=last {
        let text = with_number(rt, text, n, "N\n");
        tell_story(rt, group, text.as_str());
    }
}

/// Tells all stories of a group, each on a machine of its own.
pub(super) fn tell_all<R: Abort + AllocGlobal>(rt: &R, stories: &str) {
    let (group, stories) = parted(stories, "\nstory ");
    for text in stories.split("\nstory ") {
        match heading(text, "\neach N from ") {
            Some(range) => tell_numbered(rt, group, text, range),
            None => tell_story(rt, group, text),
        }
    }
}

/// Tells the story of this name, and answers its machine. No other text of the stories has the name in it.
pub(super) fn told<R: Abort + AllocGlobal>(rt: &R, stories: &str, name: &str) -> Scene {
    let (group, _) = parted(stories, "\nstory ");
    let (_, behind) = parted(stories, name);
    let (text, _) = parted(behind, "\nstory ");
    let mut scene = Scene::new(rt, draft(rt, group, name, text)).expect(rt, name);
    tell(rt, &mut scene, name, text);
    scene
}
