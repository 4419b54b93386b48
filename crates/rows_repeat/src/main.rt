//! Boards that do steps by `repeat` are as boards that do the same steps one by one: on random code, in both byte
//! orders, at the start of RAM, at its end, and across its first MiB; after each number of steps from a boot, and in
//! turns of two processors with ticks and interrupts between them. It prints how many boards were compared, the first
//! that differ, and which instructions weren't done.
#![tactic(auto)]

ghost use Rattle.std.specs.Prelude.{IfOk};
ghost use Rattle.brd_mem.specs.Image.{IsLoadable};

mod code;
mod compare;
mod random;
mod seen;
mod table;

use anyhow::Result;
use brd_base::NoMemory;
use brd_board::Board;
use brd_config::parse;
use brd_mem::Image;
use brd_word::Order;
use code::{Code, DATA, LENGTH, START, code_at};
use compare::{COUNTS, TURNS, first_other_count, first_other_turn};
use random::Random;
use seen::Seen;
use std::alloc::{AllocError, Global};

/// The address at which RAM starts.
const BASE: u32 = 0x8000_0000;

/// Where code lies, and in how much RAM.
#[derive(Clone, Copy)]
struct Scene {
    name: &'static str,
    ram: u32,
    /// How far the code's first word is from the first one of RAM, in words.
    at: u32,
    /// How many programs are tried.
    programs: u32,
}

const SCENES: [Scene; 3] = [
    Scene {
        name: "at the start of RAM",
        ram: 0x1_0000,
        at: 0,
        programs: 24,
    },
    Scene {
        name: "at the end of RAM",
        ram: 0x1_0000,
        at: 0x4000 - LENGTH,
        programs: 16,
    },
    Scene {
        name: "across the first MiB",
        ram: 0x20_0000,
        at: 0x4_0000 - LENGTH / 2,
        programs: 6,
    },
];

fn main(rt: HostRuntime) -> Result<()> {
    let mut seen = Seen::none();
    for scene in SCENES {
        compare_scene(&rt, scene, Order::Big, &mut seen)?;
        compare_scene(&rt, scene, Order::Little, &mut seen)?;
    }
    seen.print(&rt)
}

/// Compares boards of all programs of a scene, and prints how many.
fn compare_scene(rt: &HostRuntime, scene: Scene, order: Order, seen: &mut Seen) -> Result<()> {
    for seed in 1..=scene.programs {
        compare_program(rt, scene, order, seed, seen)?;
    }
    let name = scene.name;
    let order = match order {
        Order::Big => "big",
        Order::Little => "little",
    };
    let compared = scene.programs.wrapping_mul(COUNTS + TURNS);
    println!(rt; "{name}, {order}: {compared} boards compared")?;
    Ok(())
}

/// Compares boards of the program of a seed.
fn compare_program(
    rt: &HostRuntime,
    scene: Scene,
    order: Order,
    seed: u32,
    seen: &mut Seen,
) -> Result<()> {
    let boot = board_of(rt.alloc(), scene, order, seed)?;
    if let Some(count) = first_other_count(&boot, seen)? {
        println!(rt; "program {seed} differs after {count} steps")?;
    }
    if let Some(turn) = first_other_turn(&boot, Random::new(seed), seen)? {
        println!(rt; "program {seed} differs after turn {turn}")?;
    }
    Ok(())
}

/// The board of the program of a seed.
fn board_of(alloc: Global, scene: Scene, order: Order, seed: u32) -> Result<Board> {
    let text = config_of(alloc, scene)?;
    let config = parse(alloc, text.as_bytes())?;
    let words = words_of(alloc, scene, seed)?;
    let image = image_of(alloc, words, order)?;
    Ok(Board::boot(alloc, &image, &config)?)
}

/// Two processors, each of which runs the code, and a handler on the first.
fn config_of(alloc: Global, scene: Scene) -> Result<String, AllocError> {
    let first = address_of(scene);
    let (start, ram) = (first.wrapping_add(START * 4), scene.ram);
    format!(in alloc;
        "BOARD(2, {ram});
DEF_INH(4, {{TA_HLNG, {first}}});
CRE_TSK(1, {{TA_ACT, 0, {start}, 1, 256, NULL}});
CLASS(TCL_2) {{ CRE_TSK(2, {{TA_ACT, 77, {start}, 1, 256, NULL}}); }}
"
    )
}

/// The address of the code's first word.
fn address_of(scene: Scene) -> u32 {
    BASE.wrapping_add(scene.at.wrapping_mul(4))
}

/// The words of RAM: the data and the code.
fn words_of(alloc: Global, scene: Scene, seed: u32) -> Result<Vec<u32>, AllocError> {
    let code = code_at(address_of(scene), seed, seed % 2 == 1 || scene.at == 0);
    let data = (DATA - BASE) / 4;
    let len = (data + 128).max(scene.at.saturating_add(LENGTH));
    let mut words = vec![in alloc; 0u32; len as usize]?;
    fill(
        words.as_mut_slice(),
        data as usize,
        Random::new(seed.wrapping_add(1000)),
    );
    put(words.as_mut_slice(), scene.at as usize, &code);
    Ok(words)
}

/// Fills the words from a place on with numbers at random.
fn fill(words: &mut [u32], at: usize, mut random: Random) {
    for word in words.iter_mut().skip(at).take(128) {
        *word = random.word();
    }
}

/// Puts code at a place.
fn put(words: &mut [u32], at: usize, code: &Code) {
    let Some(end) = at.checked_add(LENGTH as usize) else {
        return;
    };
    if let Some(place) = words.get_mut(at..end) {
        place.copy_from_slice(&code.words);
    }
}

/// The image of words in a byte order.
fn image_of(alloc: Global, mut words: Vec<u32>, order: Order) -> Result<Image, NoMemory>
    ensures { IfOk result (λ image. IsLoadable image) }
{
    if order == Order::Little {
        for word in &mut words {
            *word = word.swap_bytes();
        }
    }
    let mut image = Image::from_words(alloc, &words)?;
    image.order = order;
    Ok(image)
}
