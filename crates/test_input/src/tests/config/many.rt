//! As many objects as IDs and lines.

use super::super::numbered::put_all;
use brd_config::{Config, TaskConfig, parse};
use std::alloc::{AllocError, Global};

/// A task, a semaphore, a flag, a queue, a spin lock and a mutex of an ID.
const OBJECTS: &str = "CRE_TSK(#, {TA_ACT, #, task, 16, 256, NULL});
CRE_SEM(#, {TA_TPRI, #, 255});
CRE_FLG(#, {TA_WMUL, #});
CRE_DTQ(#, {TA_TFIFO, #, NULL});
CRE_SPN(#, {TA_NULL});
CRE_MTX(#, {TA_TFIFO, 16});
";

/// A handler of a line.
const HANDLER: &str = "DEF_INH(#, {TA_HLNG, #});\n";

/// Puts a text with the objects of each ID and a handler of each line at the end.
fn put_text(text: &mut String) -> Result<(), AllocError> {
    text.push_str("PROFILE(STANDARD);\nBOARD(8, 0x1000000);\n")?;
    put_all(text, OBJECTS, 1, 255)?;
    put_all(text, HANDLER, 0, 31)
}

/// Whether each task has the ID of its place.
fn are_in_order(tasks: &[TaskConfig]) -> bool {
    for (place, task) in tasks.iter().enumerate() {
        if usize::from(task.id) != place + 1 {
            return false;
        }
    }
    true
}

/// Whether there are as many objects of each kind as IDs, the tasks by their IDs.
fn has_all(config: &Config) -> bool {
    config.tasks.len() == 255
        && config.semaphores.len() == 255
        && config.flags.len() == 255
        && config.queues.len() == 255
        && config.spin_locks.len() == 255
        && config.mutexes.len() == 255
        && config.handlers.len() == 32
        && are_in_order(config.tasks.as_slice())
}

/// Whether the last object of each kind is that of the text.
fn has_last_ones(config: &Config) -> bool {
    let [.., semaphore] = config.semaphores.as_slice() else {
        return false;
    };
    let [.., flag] = config.flags.as_slice() else {
        return false;
    };
    let [.., queue] = config.queues.as_slice() else {
        return false;
    };
    let [.., spin_lock] = config.spin_locks.as_slice() else {
        return false;
    };
    let [.., mutex] = config.mutexes.as_slice() else {
        return false;
    };
    let [.., handler] = config.handlers.as_slice() else {
        return false;
    };
    semaphore.id == 255
        && semaphore.initial == 255
        && semaphore.maximum == 255
        && flag.id == 255
        && flag.pattern == 255
        && queue.id == 255
        && queue.capacity == 255
        && spin_lock.id == 255
        && mutex.id == 255
        && mutex.ceiling == 16
        && handler.line == 31
        && handler.processor == 1
}

/// Whether a text says all that.
fn says_all(alloc: Global, text: &str) -> bool {
    match parse(alloc, text.as_bytes()) {
        Ok(config) => has_all(&config) && has_last_ones(&config),
        Err(_) => false,
    }
}

#[test]
fn as_many_objects_as_ids(rt: HostRuntime) {
    let mut text = String::new(rt.alloc());
    let is_put = put_text(&mut text).is_ok();
    assert!(rt; is_put && says_all(rt.alloc(), text.as_str()));
}
