//! A program of two workers that count into one total under a mutex, with the numbers of its
//! functions, slots, thread variables, globals and mutexes, counted by hand.

use c_check::front;
use gob_tree::{FuncKind, Unit};

/// The text.
const WORKER: &[u8] =
    b"#include <pthread.h>\n#include <assert.h>\n\nint limit = 8;\nint done;\nint total;\npthread_mutex_t lock = PTHREAD_MUTEX_INITIALIZER;\n\nint clamp(int v, int top);\n\nint succ(int v)\n{\n    return v + 1;\n}\n\nint clamp(int v, int top)\n{\n    if (v < 0)\n        return 0;\n    if (v > top)\n        return top;\n    return v;\n}\n\nvoid *worker(void *arg)\n{\n    int i;\n    for (i = 0; i < 4; i++) {\n        pthread_mutex_lock(&lock);\n        total = clamp(succ(i), limit);\n        pthread_mutex_unlock(&lock);\n    }\n    done = 1;\n    return NULL;\n}\n\nint main(void)\n{\n    pthread_t a, b;\n    int seen = 0;\n\n    pthread_create(&a, NULL, worker, NULL);\n    pthread_create(&b, NULL, worker, NULL);\n    while (!done)\n        seen++;\n    pthread_join(a, NULL);\n    pthread_join(b, NULL);\n    pthread_mutex_lock(&lock);\n    seen = total;\n    pthread_mutex_unlock(&lock);\n    assert(seen >= 0);\n    return 0;\n}\n";

/// Whether the function of a number has this name and kind, passes so many parameters, and has so
/// many slots and thread variables.
fn is_function(
    unit: &Unit,
    number: usize,
    name: &[u8],
    kind: FuncKind,
    counts: (u16, usize, usize),
) -> bool {
    match unit.funcs.as_slice().get(number) {
        Some(f) => {
            f.name.as_bytes() == name
                && f.kind == kind
                && f.params == counts.0
                && f.slots.len() == counts.1
                && f.threads.len() == counts.2
        }
        None => false,
    }
}

/// Whether the slot of a number in a function has this name.
fn is_slot(unit: &Unit, function: usize, slot: usize, name: &[u8]) -> bool {
    match unit.funcs.as_slice().get(function) {
        Some(f) => match f.slots.as_slice().get(slot) {
            Some(slot) => slot.name.as_bytes() == name,
            None => false,
        },
        None => false,
    }
}

fn is_global(unit: &Unit, number: usize, name: &[u8], initial: i64) -> bool {
    match unit.globals.as_slice().get(number) {
        Some(g) => g.name.as_bytes() == name && g.initial == initial,
        None => false,
    }
}

/// `succ` has the slots of its value and of `v`, `clamp` one more for `top`; `worker` has `i` but
/// no slot for its parameter, and `main` has `seen` and the thread variables `a` and `b`.
fn has_functions(unit: &Unit) -> bool {
    unit.funcs.len() == 4
        && unit.main == 3
        && is_function(unit, 0, b"succ", FuncKind::Int, (1, 2, 0))
        && is_function(unit, 1, b"clamp", FuncKind::Int, (2, 3, 0))
        && is_function(unit, 2, b"worker", FuncKind::Thread, (0, 2, 0))
        && is_function(unit, 3, b"main", FuncKind::Int, (0, 2, 2))
}

fn has_slots(unit: &Unit) -> bool {
    is_slot(unit, 1, 1, b"v")
        && is_slot(unit, 1, 2, b"top")
        && is_slot(unit, 2, 0, b"")
        && is_slot(unit, 2, 1, b"i")
        && is_slot(unit, 3, 1, b"seen")
}

fn has_globals(unit: &Unit) -> bool {
    unit.globals.len() == 3
        && is_global(unit, 0, b"limit", 8)
        && is_global(unit, 1, b"done", 0)
        && is_global(unit, 2, b"total", 0)
        && unit.mutexes.len() == 1
}

#[test]
fn worker(rt: HostRuntime) {
    let fits = match &front(rt.alloc(), WORKER) {
        Ok(source) => {
            let unit = source.unit();
            has_functions(unit) && has_slots(unit) && has_globals(unit)
        }
        Err(_) => false,
    };
    assert!(rt; fits);
}
