//! The page without a run. page/make has made this file of those of page/.

/// What stands before the picture.
pub(crate) const FRONT: &str = r##"<!DOCTYPE html>
<html lang="en">
<head>
<meta charset="utf-8">
<meta name="viewport" content="width=device-width, initial-scale=1">
<meta http-equiv="Content-Security-Policy" content="default-src 'none'; style-src 'sha256-HyoYuelYKqjOYPJ4MvA37ct6PNFWnz45y4SRwccm1bI='; script-src 'sha256-Jj9XUU4KFSk62sDPRBEtlNddtv/Qzi1DovV25Xx9S/8='; base-uri 'none'; form-action 'none'">
<title>A run of the board</title>
<style>/* The look of a page of `board trace --format html`: light or dark as the reader's system is, and for paper. */
:root {
  color-scheme: light dark;
  --ground: #ffffff; --ink: #1b1b1b; --soft: #595959; --line: #c9c9c9; --card: #f5f5f2;
  --here: #d7e8f7; --changed: #ffe9a8; --chosen: #0057a8; --fault: #a33a00;
}
@media (prefers-color-scheme: dark) {
  :root {
    --ground: #15181c; --ink: #e6e6e3; --soft: #a8adb3; --line: #3d444c; --card: #1e2329;
    --here: #1d3f5e; --changed: #574612; --chosen: #7dbdf5; --fault: #ff9b6b;
  }
}
* { box-sizing: border-box; }
html { scroll-padding: 7rem 0 1rem; }
[hidden] { display: none !important; }
body { margin: 0 auto; padding: 0.8rem 1rem 2rem; max-width: 100rem; background: var(--ground); color: var(--ink);
  font: 15px/1.4 system-ui, sans-serif; }
h1 { font-size: 1.25rem; margin: 0 0 0.5rem; }
h2 { font-size: 1rem; margin: 0 0 0.4rem; }
h3 { font-size: 0.9rem; margin: 0.6rem 0 0.1rem; }
#processors p { margin: 0 0 0.2rem; font-size: 0.87em; }
#time, #order { margin: 0.3rem 0 0; }
#order { color: var(--soft); font-size: 0.87em; }
code, pre, td, .mono { font-family: ui-monospace, "DejaVu Sans Mono", Menlo, Consolas, monospace; }
summary { cursor: pointer; padding: 0.15rem 0; }
#picture .scrolls { background: #ffffff; border: 1px solid var(--line); border-radius: 4px; max-height: 45vh; }
#picture svg { display: block; width: 100%; height: auto; min-width: 46rem; }
#picture p { color: #1b1b1b; padding: 0 1rem; }
#left-out { margin: 0 0 0.5rem; padding-left: 0.7rem; border-left: 4px solid var(--fault); }
#ends { margin: 0.3rem 0; }
#ends ul { margin: 0 0 0.4rem; padding-left: 1.4rem; }
#ends li { overflow-wrap: anywhere; }
#controls, #asks { display: flex; flex-wrap: wrap; gap: 0.4rem; align-items: center; }
#controls { position: sticky; top: 0; z-index: 1; background: var(--ground); padding: 0.6rem 0 0.4rem; }
#slider { flex: 1 1 12rem; min-width: 0; padding: 0; accent-color: var(--chosen); }
.group { display: inline-flex; flex-wrap: wrap; gap: 0.3rem; align-items: center; border-left: 1px solid var(--line);
  padding-left: 0.5rem; }
button, input, select { font: inherit; color: inherit; background: var(--card); border: 1px solid var(--line);
  border-radius: 4px; padding: 0.2rem 0.5rem; }
button { cursor: pointer; }
button:hover { border-color: var(--chosen); }
:focus-visible { outline: 3px solid var(--chosen); outline-offset: 1px; }
#said { min-height: 4.3em; margin: 0.4rem 0 0.8rem; padding: 0.5rem 0.7rem; background: var(--card);
  border-left: 4px solid var(--chosen); border-radius: 4px; overflow-wrap: anywhere; white-space: pre-line; }
#range { color: var(--soft); }
#views { display: grid; gap: 1rem; align-items: start; grid-template-columns: minmax(0, 1fr); }
.column { display: grid; gap: 1rem; align-items: start; grid-template-columns: minmax(0, 1fr); }
@media (min-width: 700px) {
  #views { grid-template-columns: minmax(0, 1fr) minmax(0, 1fr); grid-template-rows: auto 1fr; }
  .column:first-child { grid-row: 1 / span 2; }
}
@media (min-width: 700px) and (max-width: 1119px) {
  #views.has-source { grid-template-rows: auto; }
  #views.has-source .column:first-child { grid-column: 1 / -1; grid-row: 1; }
}
@media (min-width: 1120px) {
  #views { grid-template-columns: repeat(3, minmax(0, 1fr)); grid-template-rows: auto; }
  #views.has-source { grid-template-columns: minmax(0, 8fr) minmax(0, 5fr) minmax(0, 5fr); }
  #views.has-lines { grid-template-columns: minmax(0, 2fr) minmax(0, 1fr) minmax(0, 1fr); }
  .column:first-child { grid-row: 1; }
}
@media (max-width: 699px) {
  body { padding: 0.6rem 0.6rem 2rem; }
  .group { border-left: 0; padding-left: 0; }
  #listing .scrolls { max-height: 45vh; }
}
@media (max-height: 500px) { #controls { position: static; } }
section { background: var(--card); border: 1px solid var(--line); border-radius: 4px; padding: 0.6rem 0.7rem;
  min-width: 0; }
table { border-collapse: collapse; width: 100%; }
th { text-align: left; font-weight: 600; color: var(--soft); font-size: 0.85em; }
td, th { padding: 0.05rem 0.4rem 0.05rem 0; vertical-align: baseline; }
td { font-size: 0.87em; white-space: nowrap; }
#tasks td:last-child { white-space: normal; min-width: 8rem; }
#memory td:nth-child(5) { white-space: pre; }
#stack td:last-child { white-space: normal; min-width: 6rem; }
#path { margin: 0 0 0.3rem; font-size: 0.87em; overflow-wrap: anywhere; }
.scrolls { overflow: auto; min-height: 24px; max-height: 36rem; }
#memory .scrolls { max-height: 20rem; }
#give { margin: 0 0 0.4rem; font-size: 0.87em; color: var(--soft); }
#give input { max-width: 100%; min-height: 24px; border: 0; padding: 0; background: none; }
#listing tr.label td { padding-top: 0.5rem; }
#listing tr.here td { background: var(--here); }
#listing tr.gap td, #listing tr.unused td { color: var(--soft); }
#listing td:nth-child(2) { color: var(--soft); }
#listing .item { padding: 0 0.15rem; font-size: 1em; }
td .item { white-space: nowrap; }
#memory .item { white-space: normal; min-width: 5.5rem; }
#listing .item:hover { border-color: var(--chosen); text-decoration: underline; }
#listing td:nth-child(4), #listing td:nth-child(5) { white-space: pre; }
#views.has-source #listing td:nth-child(5) { white-space: pre-wrap; min-width: 10rem; }
#listing td:first-child { font-weight: 700; }
#views:not(.has-source) .source { display: none; }
/* (An assembler source has the names, too.) */
#views.has-source:not(.has-lines) #listing tr > :nth-child(3) { display: none; }
#views.has-source #listing td:nth-child(4) { max-width: 13rem; overflow: hidden; text-overflow: ellipsis; }
#views.has-lines #listing td:nth-child(3) { max-width: 6.5rem; overflow: hidden; text-overflow: ellipsis; }
#views.has-lines #listing td:nth-child(4) { max-width: 11rem; }
.registers { display: grid; grid-template-columns: repeat(auto-fill, minmax(8rem, 1fr)); gap: 0 0.2rem; margin: 0;
  padding: 0; list-style: none; }
.item { max-width: 100%; min-height: 24px; text-align: left; border: 1px solid transparent; background: none;
  padding: 0.02rem 0.25rem; font: 0.87em/1.3 ui-monospace, "DejaVu Sans Mono", Menlo, Consolas, monospace;
  white-space: pre-wrap; overflow-wrap: anywhere; }
.item.zero { color: var(--soft); }
.item.changed, tr.changed td, tr.changed .item { background: var(--changed); font-weight: 700; }
.item[aria-pressed="true"] { border-color: var(--chosen); outline: 1px solid var(--chosen); }
#console pre { margin: 0; min-height: 24px; max-height: 16rem; overflow: auto; white-space: pre-wrap;
  overflow-wrap: anywhere; font-size: 0.87em; }
#events ol { margin: 0; padding: 0; list-style: none; font-size: 0.87em; }
#events li { overflow-wrap: anywhere; }
#events li[aria-current] { background: var(--here); }
#events .later { color: var(--soft); }
#keys { margin-top: 1rem; }
#keys table { width: auto; }
#keys td { font-family: inherit; white-space: normal; }
#keys th { padding-right: 1rem; }
a { color: var(--chosen); }
#events a { font-family: ui-monospace, "DejaVu Sans Mono", Menlo, Consolas, monospace; }
/* (The picture's colours are fixed: in the dark white becomes black, and each hue stays.) */
@media screen and (prefers-color-scheme: dark) {
  #picture .scrolls { background: #000000; }
  #picture svg { filter: invert(1) hue-rotate(180deg); }
  #picture p { color: var(--ink); }
}
/* (There the reader's colours replace these, so what they say is said by lines, too.) */
@media (forced-colors: active) {
  .item.changed, tr.changed td, tr.changed .item { text-decoration: underline; background: Mark; color: MarkText;
    forced-color-adjust: none; }
  #listing tr.here td, #listing tr.here .item, #events li[aria-current], #events li[aria-current] a {
    background: Highlight; color: HighlightText; forced-color-adjust: none; }
  #picture svg { forced-color-adjust: none; filter: none; background: #ffffff; }
  .item[aria-pressed="true"] { outline: 2px solid Highlight; }
}
@media print {
  :root { --ground: #ffffff; --ink: #000000; --soft: #444444; --line: #999999; --card: #ffffff; --here: #ffffff;
    --changed: #ffffff; --chosen: #000000; }
  body { max-width: none; padding: 0; font-size: 10pt; }
  .item { min-height: 0; }
  #controls, #asks, #events, #keys, #give, summary { display: none; }
  #ends summary { display: block; list-style: none; }
  #picture .scrolls { border: 0; }
  #picture svg { min-width: 0; }
  #views, .column { display: block; }
  section, #said { border: 0; padding: 0; background: none; margin: 0 0 0.6rem; }
  .scrolls, #memory .scrolls, #console pre { max-height: none; overflow: visible; }
  h2, h3 { break-after: avoid; }
  tr, li { break-inside: avoid; }
}
</style>
</head>
<body>
<header>
<h1>A run of the board</h1>
<p id="left-out" hidden></p>
<noscript><p>The picture needs no script; all below it does.</p></noscript>
<details id="picture" open><summary>Picture</summary>
<div class="scrolls" tabindex="0" role="group" aria-label="Picture">
"##;

/// What stands between the picture and the data.
pub(crate) const MIDDLE: &str = r##"
</div></details>
<details id="ends" hidden><summary id="end"></summary><ul></ul></details>
</header>
<main id="run" hidden>
<div id="controls" role="group" aria-label="Moves">
<button type="button" data-do="first" aria-keyshortcuts="Home" title="Home">First</button>
<button type="button" data-do="back" aria-keyshortcuts="ArrowLeft" title="left arrow">&larr; Back</button>
<button type="button" id="on" data-do="on" aria-keyshortcuts="ArrowRight" title="right arrow">On &rarr;</button>
<button type="button" data-do="last" aria-keyshortcuts="End" title="End">Last</button>
<span class="group"><button type="button" id="play" data-do="play" aria-keyshortcuts="p" title="P">Play</button>
<label for="speed">events a second</label> <select id="speed"><option>1</option><option selected>2</option><option>5</option><option>20</option><option>100</option><option>1000</option></select></span>
<span class="group"><label for="at">Position</label> <input id="at" type="text" inputmode="numeric" size="6" aria-describedby="range"> <span id="range"></span></span>
<input id="slider" type="range" step="1" aria-label="Position, as a slider">
</div>
<div id="asks" role="group" aria-label="Questions">
<span class="group"><label for="cpu">Processor</label> <select id="cpu"></select>
<button type="button" data-do="earlier-own" title="Shift+C">Its previous event</button>
<button type="button" data-do="later-own" aria-keyshortcuts="c" title="C">Its next event</button></span>
<span class="group"><button type="button" data-do="earlier-happening" title="Shift+H">Previous happening</button>
<button type="button" data-do="later-happening" aria-keyshortcuts="h" title="H">Next happening</button></span>
<span class="group"><button type="button" data-do="last-writer" aria-keyshortcuts="w" title="W">Who wrote <b class="chosen"></b> last?</button>
<button type="button" data-do="next-writer" title="Shift+W">Who writes it next?</button></span>
</div>
<p id="said" role="status" aria-live="polite" aria-atomic="true"></p>
<div id="views">
<div class="column">
<section id="listing" aria-labelledby="listing-title"><h2 id="listing-title">Listing</h2>
<p id="give"><label for="source">Source, to be shown beside:</label> <input id="source" type="file" multiple></p>
<div class="scrolls" tabindex="0" role="group" aria-labelledby="listing-title"><table><thead><tr><th scope="col">Here</th><th scope="col">Address</th><th scope="col">Name</th><th scope="col">Instruction</th><th scope="col" class="source">Source</th></tr></thead><tbody></tbody></table></div></section>
<section id="events" aria-labelledby="events-title"><h2 id="events-title">Events</h2><ol></ol></section>
</div>
<div class="column">
<section id="processors" aria-labelledby="processors-title"><h2 id="processors-title">Registers</h2><div></div></section>
<section id="stack" aria-labelledby="stack-title"><h2 id="stack-title">Stack</h2>
<p id="path"></p>
<div class="scrolls" tabindex="0" role="group" aria-labelledby="stack-title"><table><thead><tr><th scope="col">Place</th><th scope="col">Address</th><th scope="col">Hex</th><th scope="col">Stands for</th><th scope="col">Stored</th></tr></thead><tbody></tbody></table></div></section>
</div>
<div class="column">
<section id="memory" aria-labelledby="memory-title"><h2 id="memory-title">Memory</h2>
<div class="scrolls" tabindex="0" role="group" aria-labelledby="memory-title"><table><thead><tr><th scope="col">Word</th><th scope="col">Address</th><th scope="col">Hex</th><th scope="col">Signed</th><th scope="col">Text</th><th scope="col">Just now</th></tr></thead><tbody></tbody></table></div>
<p id="order">Characters stand with the highest byte first: no load and no store of a byte here shows which one is the first in memory.</p></section>
<section id="tasks" aria-labelledby="tasks-title"><h2 id="tasks-title">Tasks</h2>
<div class="scrolls" tabindex="0" role="group" aria-labelledby="tasks-title"><table><thead><tr><th scope="col">Task</th><th scope="col">State</th><th scope="col">Priority</th><th scope="col">Processor</th><th scope="col">Waits</th></tr></thead><tbody></tbody></table></div>
<p id="time"></p></section>
<section id="console" aria-labelledby="console-title"><h2 id="console-title">Console</h2><pre tabindex="0" role="group" aria-labelledby="console-title"></pre></section>
</div>
</div>
<details id="keys"><summary>Keys</summary>
<table><tbody>
<tr><th scope="row">right, left arrow</th><td>one step on, one step back</td></tr>
<tr><th scope="row">Home, End</th><td>the first position, the last one</td></tr>
<tr><th scope="row">P</th><td>plays on, or stops</td></tr>
<tr><th scope="row">G</th><td>to the field of the position; Enter goes there, Escape leaves it</td></tr>
<tr><th scope="row">L</th><td>to the listing; up and down choose a line, Enter runs on to where it is executed next, Shift and a click back to where it was</td></tr>
<tr><th scope="row">1 to 8</th><td>chooses a processor</td></tr>
<tr><th scope="row">C, Shift+C</th><td>the next event of the chosen processor, its previous one</td></tr>
<tr><th scope="row">H, Shift+H</th><td>the next happening (a call, an exception, an interrupt, a tick that releases a task), the previous one</td></tr>
<tr><th scope="row">M, Shift+M</th><td>chooses the next word of memory, the previous one</td></tr>
<tr><th scope="row">R, Shift+R</th><td>chooses the next register of the chosen processor, the previous one</td></tr>
<tr><th scope="row">W, Shift+W</th><td>who wrote the chosen register or word last, who writes it next</td></tr>
</tbody></table>
<p>Position <i>n</i> is the board after <i>n</i> events of the journal; <code>#at=17</code> at the end of the address leads to position 17, and <code>#event=17</code> to the position after event 17.</p>
</details>
</main>
<script id="data" type="application/json">"##;

/// What stands behind the data.
pub(crate) const REST: &str = r##"</script>
<script>// Shows a run of the board at each of its positions. Position n is the board after n events.
//
// The data (element "data", JSON) have the state at the first position and what each event changed:
//   from, cpus, tasks, tick, off, console    the first position, and how the board stands there
//   asked     the position from which on events were asked for: those before the first one here were left out
//   events    objects; of an event
//     c  its processor      a  the address of its instruction    t  what is said of it     q  nothing happens
//     r  registers of its processor that it writes, as number, word, number, word ..; 32 is HI, 33 LO, 34 the slot
//     p  where its processor goes on, unless that is behind it   i  its instruction, unless the listing has it
//     m  a word of memory, what was there, and of a store what is there then
//     d  processors on which somebody else executes              s  tasks that differ
//     o  what it writes to the console      k  the tick          x  it turns the board off
//   listing   address, name, instruction, the file and the line of the source ("main.c:31") where they are known, and
//             the text of that line where sdk/sourced has put it there
//   words     address and name of each word that is loaded or stored
//   deadlock  1 where the board is deadlocked in the end
//   circle    the tasks that wait for each other then: number, the semaphore or mutex that it waits for, of each unit
//             of that the task that has taken it, and in which event, and 1 if it is a mutex
// A processor is its number, "task", "handler", "idle" or "stopped", the number of the task or of the line, the address
// of the next instruction, and the registers that aren't 0. A task is its number, state, priority, processor, what it
// waits for, the object's ID, and the tick that ends the wait.
//
// All else that the page says is found here: which branches were taken, what is data, who called whom, and what stands
// in the end.
//
// Text of the data comes into the page by textContent alone, so that it stays text.
"use strict";

const run = JSON.parse(document.getElementById("data").textContent);
const events = run.events;
const from = run.from;
const to = from + events.length;
const NAMES = ("$zero $at $v0 $v1 $a0 $a1 $a2 $a3 $t0 $t1 $t2 $t3 $t4 $t5 $t6 $t7 $s0 $s1 $s2 $s3 $s4 $s5 $s6 $s7 "
  + "$t8 $t9 $k0 $k1 $gp $sp $fp $ra HI LO").split(" ");
const SLOT = 34, SP = 29;
// What a function leaves as its caller had it: $s0 to $s7, $gp, $sp, $fp.
const KEPT = [16, 17, 18, 19, 20, 21, 22, 23, 28, 29, 30];
// The registers that are shown.
const SHOWN = Array.from({ length: 33 }, (_, i) => i + 1);
// How many rows of the listing are shown at a time, if it has more.
const ROWS = 240;

const byId = (id) => document.getElementById(id);
const hex = (word) => (word >>> 0).toString(16).padStart(8, "0");
const signed = (word) => String(word | 0);
// Bytes as text: what is no printable ASCII as \xHH, as the picture has it.
const plain = (text) => text.replace(/[^ -~]/g, (c) => "\\x" + c.charCodeAt(0).toString(16).padStart(2, "0"));
// The same, but newlines as they are.
const lines = (text) => text.split("\n").map(plain).join("\n");
// A number as it is read.
const grouped = (number) => String(number).replace(/\B(?=(\d{3})+$)/g, ",");
// A label without the distance to it.
const labelOf = (name) => name.replace(/\+0x[0-9a-f]+$/, "");

function make(name, text, className) {
  const element = document.createElement(name);
  if (text !== undefined) element.textContent = text;
  if (className) element.className = className;
  return element;
}

// ---- what is known of addresses

const rowAt = new Map(run.listing.map((row, i) => [row[0], i]));
const wordAt = new Map(run.words.map((row, i) => [row[0], i]));
const placeOf = (address) => {
  const row = rowAt.get(address);
  return row === undefined ? hex(address) : plain(run.listing[row][1]);
};

// A word of a stack goes by where it is from the end of that, any other one by its name.
function wordName(address) {
  if (!rowAt.has(address)) {
    for (const [who, { low, top }] of stacks) {
      if (low <= address && address < top) return "stack of " + who + ", -" + (top - address);
    }
  }
  return plain(run.words[wordAt.get(address)][1]);
}

// The name of an address of which something is known, and nothing of any other.
function nameAt(address) {
  const word = address - address % 4;
  const name = wordAt.has(word) ? wordName(word) : rowAt.has(word) ? placeOf(word) : "";
  if (name === "" || word === address) return name;
  const found = /\+0x([0-9a-f]+)$/.exec(name);
  return labelOf(name) + "+0x" + ((found ? parseInt(found[1], 16) : 0) + address % 4).toString(16);
}

// What a word may stand for: an address with a name, a number and a character, or four characters; or nothing of these.
function meaning(word) {
  const number = word | 0;
  const name = nameAt(word);
  if (name !== "") return name;
  if (number > 31 && number < 127) return number + ", '" + String.fromCharCode(number) + "'";
  if (number >= -32768 && number <= 9999999) return String(number);
  const text = characters(word);
  return /^[\w !,.:;?]{2,4}\u00b7*$/.test(text) ? "\"" + text + "\"" : "";
}

// A word with what it may stand for, if that says more than its digits.
function valueOf(word) {
  const text = word < 10 ? "" : meaning(word);
  return hex(word) + (text === "" ? "" : " (" + text + ")");
}

// The four bytes of a word as characters, in the order in which they lie in memory.
function characters(word) {
  const bytes = [24, 16, 8, 0].map((bit) => (word >>> bit) & 255);
  if (isBig === false) bytes.reverse();
  return bytes.map((byte) => (byte > 31 && byte < 127 ? String.fromCharCode(byte) : "\u00b7")).join("");
}

// An instruction whose target goes by its name, where that has one.
const withNames = (text) => /^[bj]/.test(text)
  ? text.replace(/0x[0-9a-f]{8}$/, (target) => (rowAt.has(Number(target)) ? run.listing[rowAt.get(Number(target))][1]
    : target)) : text;

// Of addresses whose line of source is known, the file and the line; and of those whose text is known, the text.
const lineOf = new Map(run.listing.filter((row) => row.length > 3).map((row) => [row[0], plain(row[3])]));
const sourceOf = new Map(run.listing.filter((row) => row.length > 4).map((row) => [row[0], row[4]]));

// The instruction of an event, as the listing has it; nothing where it isn't known.
function instructionOf(i) {
  const event = events[i];
  if (event.i !== undefined) return event.i;
  return rowAt.has(event.a) ? run.listing[rowAt.get(event.a)][2] : "";
}

// ---- states

// What a task or a handler is called. From line 32 on a handler is that of time: the cyclic handler of ID c has line
// 30 + 2 * c, the alarm handler of ID a line 31 + 2 * a.
function called(kind, id) {
  if (kind !== "handler" || id < 32) return kind + " " + id;
  return (id % 2 === 0 ? "cyclic handler " : "alarm handler ") + Math.floor((id - 30) / 2);
}

function loaded(entry) {
  const [number, kind, id, pc, ...rest] = entry;
  const regs = new Uint32Array(35);
  for (let i = 0; i + 1 < rest.length; i += 2) regs[rest[i]] = rest[i + 1];
  return { number, who: id === undefined ? kind : called(kind, id), executes: pc !== undefined, pc: pc || 0, regs };
}

function firstState() {
  const words = new Uint32Array(run.words.length);
  const seen = new Uint8Array(run.words.length);
  for (const event of events) {
    if (!event.m) continue;
    const i = wordAt.get(event.m[0]);
    if (seen[i]) continue;
    seen[i] = 1;
    words[i] = event.m[1];
  }
  return { cpus: run.cpus.map(loaded), tasks: run.tasks.slice(), words, tick: run.tick, off: run.off === 1,
    printed: run.console.length };
}

function copied(state) {
  return { ...state, cpus: state.cpus.map((cpu) => ({ ...cpu, regs: cpu.regs.slice() })), tasks: state.tasks.slice(),
    words: state.words.slice() };
}

// Does an event.
function happen(state, event) {
  if (event.r) {
    const cpu = state.cpus[event.c - 1];
    for (let i = 0; i < event.r.length; i += 2) cpu.regs[event.r[i]] = event.r[i + 1];
    cpu.pc = event.p === undefined ? (event.a + 4) >>> 0 : event.p;
  }
  if (event.m && event.m.length === 3) state.words[wordAt.get(event.m[0])] = event.m[2];
  for (const entry of event.d || []) state.cpus[entry[0] - 1] = loaded(entry);
  for (const entry of event.s || []) state.tasks[state.tasks.findIndex((task) => task[0] === entry[0])] = entry;
  if (event.k !== undefined) state.tick = event.k;
  if (event.x) state.off = true;
  if (event.o) state.printed += event.o.length;
}

// ---- what is found by going through the run once

// Who executed each event; of one in a delay slot, the event of its branch or jump; of such a one, where it leads.
const executors = new Array(events.length);
const branchOf = new Map();
const ledTo = new Map();
// The functions that its executor was in after each event: { place, back, at, kept, outer }, the innermost one.
const inside = new Array(events.length);
// Of a return, the function, and the registers that it hasn't left as they were.
const unkept = new Map();
// Of a store, the store of somebody else that it writes over, and its executor's load before that.
const over = new Map();
// Which addresses were executed; of those of service calls, the name of the call that was made there last.
const executed = new Set();
const calls = new Map();
// Of a task or a handler the lowest and the highest $sp that were seen: the highest one is where its stack ends.
const stacks = new Map();
// Whether the first byte of a word is its highest one; undefined until a load or a store of a byte has shown it.
let isBig;

const isStore = (event) => event.m !== undefined && event.m.length === 3;
const writesRegister = (event, number) => {
  for (let i = 0; event.r && i < event.r.length; i += 2) if (event.r[i] === number) return event.r[i + 1];
  return undefined;
};

const pending = new Map(), functions = new Map(), touched = new Map();

// Finds what a branch or a jump leads to, by the event in its delay slot.
function noteBranch(event, i, who, regs) {
  const branch = pending.get(who);
  const isNext = branch !== undefined && !event.q && event.a === events[branch].a + 4 && !/^accepts /.test(event.t);
  if (isNext) {
    pending.delete(who);
    branchOf.set(i, branch);
    if (event.r) {
      ledTo.set(branch, event.p === undefined ? (event.a + 4) >>> 0 : event.p);
      noteFunction(branch, i, who, regs);
    }
  }
  if (writesRegister(event, SLOT) === 1) pending.set(who, i);
}

// Finds calls of functions, and returns from them.
function noteFunction(branch, i, who, regs) {
  const text = instructionOf(branch), place = ledTo.get(branch), back = events[branch].a + 8;
  let called = functions.get(who);
  if (CALLING.test(text) && place !== back) {
    functions.set(who, { place, back, at: branch, kept: KEPT.map((number) => regs[number]), outer: called });
  } else if (text === "jr $ra") {
    while (called && called.back !== place) called = called.outer;
    if (!called) return;
    const changed = KEPT.filter((number, k) => regs[number] !== called.kept[k]);
    if (changed.length > 0) unkept.set(i, { called, changed });
    functions.set(who, called.outer);
  }
}

// Finds stores over what somebody else has stored since their executor has loaded the word.
function noteTouch(event, i, who) {
  const [address] = event.m;
  if (!touched.has(address)) touched.set(address, { store: -1, own: new Map() });
  const word = touched.get(address);
  const own = word.own.get(who);
  if (isStore(event)) {
    if (own !== undefined && !isStore(events[own]) && word.store > own && !isBeside(i, word.store)) {
      over.set(i, { store: word.store, load: own });
    }
    word.store = i;
  }
  word.own.set(who, i);
}

// Whether two stores, of which one is of a part of the word, have changed different bytes of it.
function isBeside(one, other) {
  if (![one, other].some((i) => /^s[bh] /.test(instructionOf(i)))) return false;
  const [first, second] = [one, other].map((i) => events[i].m[1] ^ events[i].m[2]);
  return first !== 0 && second !== 0
    && [0, 8, 16, 24].every((bit) => !((first >>> bit) & 255 && (second >>> bit) & 255));
}

// Finds by a load or a store of a byte which byte of its word that is.
function noteOrder(event, i, regs) {
  const found = /^(lbu?|sb) (\$\w+), (-?\d+)\((\$\w+)\)$/.exec(instructionOf(i));
  if (!found) return;
  const shift = 8 * ((regs[NAMES.indexOf(found[4])] + Number(found[3])) & 3);
  const register = NAMES.indexOf(found[2]);
  const byte = found[1] === "sb" ? regs[register] : writesRegister(event, register);
  const word = event.m[event.m.length - 1];
  const high = (word >>> (24 - shift)) & 255, low = (word >>> shift) & 255;
  if (byte !== undefined && high !== low && [high, low].includes(byte & 255)) isBig = (byte & 255) === high;
}

// Finds where stacks are. ($sp is 0 where a handler begins, and may lead elsewhere for a while.)
function noteStack(who, sp) {
  const stack = stacks.get(who) || { low: sp, top: sp };
  if (sp === 0 || Math.abs(sp - stack.top) > 65536) return;
  stacks.set(who, { low: Math.min(stack.low, sp), top: Math.max(stack.top, sp) });
}

// Jumps and branches that link; the texts of service calls and of exceptions.
const CALLING = /^(jal|jalr|b\w*all?) /;
const CALL = /^(\w+)\(/;
const FAULT = /^(AdEL|AdES|IBE|DBE|Bp|RI|Ov|Tr): /;

function noteExecuted(event) {
  const call = event.t === undefined ? null : CALL.exec(event.t);
  if (call) calls.set(event.a, call[1]);
  if (event.t === undefined || call || (FAULT.test(event.t) && !/^RI|fetch/.test(event.t))) executed.add(event.a);
}

// What is found of an event that somebody executed; the state is the one after it.
function note(event, i, who, state) {
  const { regs } = state.cpus[event.c - 1];
  if (!event.q) noteExecuted(event);
  if (event.m) noteTouch(event, i, who);
  noteBranch(event, i, who, regs);
  if (event.r) noteStack(who, regs[SP]);
  if (CALL.test(event.t || "") && event.t.startsWith("ext_tsk(")) functions.delete(who);
  inside[i] = functions.get(who);
}

// What is found of who executes from an event on.
function noteSwitch(event) {
  for (const entry of event.d || []) {
    const cpu = loaded(entry);
    noteStack(cpu.who, cpu.regs[SP]);
    if (entry[1] === "handler") functions.delete(cpu.who);
  }
  for (const [id, name] of event.s || []) if (name === "dormant") functions.delete("task " + id);
}

// States from which others are made, EACH events apart.
const EACH = Math.max(256, Math.ceil(events.length / 200));
const frames = [];
{
  const state = firstState();
  for (const cpu of state.cpus) noteStack(cpu.who, cpu.regs[SP]);
  events.forEach((event, i) => {
    if (i % EACH === 0) frames.push(copied(state));
    const cpu = state.cpus[event.c - 1];
    executors[i] = event.a === undefined || !cpu ? "" : cpu.who;
    if (isBig === undefined && event.m) noteOrder(event, i, cpu.regs);
    happen(state, event);
    if (executors[i] !== "") note(event, i, executors[i], state);
    noteSwitch(event);
  });
  if (events.length % EACH === 0) frames.push(copied(state));
}
const output = run.console + events.map((event) => event.o || "").join("");

// The state at a position.
function stateAt(position) {
  const count = position - from;
  const frame = Math.floor(count / EACH);
  const state = copied(frames[frame]);
  for (let i = frame * EACH; i < count; i++) happen(state, events[i]);
  return state;
}

// ---- who wrote what: an item is a register of a processor, or a word of memory

function nameOf(item) {
  return item.word === undefined ? NAMES[item.register] + " of processor " + item.cpu : wordName(item.word);
}

// The last event below a place of the list that wrote an item as it stands in a state; -1 where there is none.
function lastWriter(item, state, below) {
  if (item.word !== undefined) {
    for (let i = below - 1; i >= 0; i--) if (isStore(events[i]) && events[i].m[0] === item.word) return i;
    return -1;
  }
  const cpu = state.cpus[item.cpu - 1];
  const value = cpu.regs[item.register];
  let arrived = -1;
  for (let i = below - 1; i >= 0; i--) {
    const written = executors[i] === cpu.who ? writesRegister(events[i], item.register) : undefined;
    if (written !== undefined) return arrived < 0 || written === value ? i : arrived;
    if (arrived < 0 && (events[i].d || []).some((entry) => entry[0] === item.cpu)) arrived = i;
  }
  return arrived;
}

// The next event from a place of the list on that writes an item.
function nextWriter(item, state, start) {
  const who = item.word === undefined ? state.cpus[item.cpu - 1].who : "";
  for (let i = start; i < events.length; i++) {
    const event = events[i];
    if (item.word !== undefined ? isStore(event) && event.m[0] === item.word
      : executors[i] === who && writesRegister(event, item.register) !== undefined) return i;
  }
  return -1;
}

// ---- an event in words

const actor = (i) => "processor " + events[i].c + (executors[i] ? ", " + executors[i] : "");

// That a store writes over what its executor hasn't seen, since he loaded the word before that.
function writtenOver(i) {
  if (!over.has(i)) return "";
  const { store, load } = over.get(i);
  return "It writes over what " + actor(store) + " stored at event " + (from + store) + " (" + hex(events[store].m[2])
    + "), after the load at event " + (from + load) + " (" + hex(events[load].m[1]) + ").";
}

// That a function returns, and has changed what it should have left as it was.
function notKept(i) {
  if (!unkept.has(i)) return "";
  const { called, changed } = unkept.get(i);
  const names = changed.map((number) => NAMES[number] + " (it was " + hex(called.kept[KEPT.indexOf(number)]) + ")");
  return placeOf(called.place) + " returns, and since its call at event " + (from + called.at) + " it has changed "
    + names.join(", ") + ": a function leaves these as they were.";
}

// The line of source that an event is of, where its text is known.
function sourceLine(i) {
  const { a } = events[i];
  return lineOf.has(a) && sourceOf.has(a) ? lineOf.get(a) + ": " + plain(sourceOf.get(a)) : "";
}

const shown = (i) => plain(withNames(instructionOf(i)));
const isBranch = (i) => events[i].t === undefined && /^[bj]/.test(instructionOf(i));
const isConditional = (text) => text[0] === "b" && !/^(beql?|bgezall?) \$zero, (\$zero,|0x)/.test(text);

// What a branch or a jump does.
function way(i) {
  const text = instructionOf(i), behind = (events[i].a + 8) >>> 0, to = ledTo.get(i);
  if (writesRegister(events[i], SLOT) !== 1) return "not taken, and its delay slot is left out";
  if (to === undefined) return "its delay slot is next";
  if (isConditional(text) && to === behind) return "not taken";
  if (CALLING.test(text)) return "calls " + placeOf(to) + ", to return to " + placeOf(behind);
  if (text === "jr $ra") return "returns to " + placeOf(to);
  return (isConditional(text) ? "taken, to " : "goes to ") + placeOf(to);
}

// What an event has to do with delay slots.
function ways(i) {
  const said = [];
  if (isBranch(i)) said.push(way(i) + (ledTo.get(i) - events[i].a - 8 ? " after its delay slot" : ""));
  if (branchOf.has(i)) {
    const branch = branchOf.get(i);
    said.push("in the delay slot of event " + (from + branch) + ", " + shown(branch)
      + (ledTo.has(branch) ? ": " + way(branch) : ""));
  }
  return said;
}

function wordsOf(i) {
  const event = events[i];
  const said = [];
  if (event.a !== undefined) {
    said.push("at " + placeOf(event.a) + (lineOf.has(event.a) ? " (" + lineOf.get(event.a) + ")" : ""));
  }
  if (event.i !== undefined || (event.t === undefined && rowAt.has(event.a))) said.push(shown(i));
  if (event.t !== undefined) said.push(plain(event.t));
  if (event.t === undefined) {
    for (let j = 0; event.r && j < event.r.length; j += 2) {
      if (event.r[j] !== SLOT) said.push(NAMES[event.r[j]] + " = " + valueOf(event.r[j + 1]));
    }
  }
  if (event.m) {
    said.push(wordName(event.m[0]) + (isStore(event) ? " was " + valueOf(event.m[1]) + ", becomes "
      + valueOf(event.m[2]) : " is " + valueOf(event.m[1])));
  }
  return (event.c === undefined ? "" : actor(i) + " ") + said.concat(ways(i)).join("; ");
}

// ---- what stands in the end

const after = (i) => "event " + (from + i);
// What is said of what happened in an event that this page doesn't have.
const BEFORE = "before this page begins";
const textsOf = (pattern) => events.flatMap((event, i) => {
  const found = event.t === undefined ? null : pattern.exec(event.t);
  return found ? [{ i, found }] : [];
});

// Texts, with how often each comes and first in which event.
function counted(found) {
  const texts = new Map();
  for (const { text, i } of found) {
    if (!texts.has(text)) texts.set(text, { text, i, times: 0 });
    texts.get(text).times++;
  }
  return [...texts.values()].map(({ text, i, times }) => ({ i, text: text
    + (times > 1 ? " (" + times + " times)" : "") }));
}

// A line that is raised without effect, and a time handler that is due while its line is pending.
const LOST = /^(line \d+) (is pending already|has no handler|is raised by ticks alone)|(\w+ handler \d+) is due, and/g;

const faults = () => textsOf(FAULT).map(({ i }) => ({ i, text: actor(i) + " at " + placeOf(events[i].a) + ": "
  + plain(events[i].t) }));
const refused = () => counted(events.flatMap((event, i) =>
  [...(event.t || "").matchAll(/(\w+)\([^)]*\) = (E_(?!OK)\w+)/g)]
    .map(([, call, answer]) => ({ text: call + " is answered with " + answer, i }))));
const lost = () => counted(events.flatMap((event, i) => [...(event.t || "").matchAll(LOST)]
  .map(([, line, why, handler]) => ({ i, text: "the interrupt of " + (line || handler)
    + " is raised without effect, since it " + (why || "is pending already") }))));
const overwritten = () => counted([...over].map(([i, { store }]) => ({ text: executors[i] + " stores to "
  + wordName(events[i].m[0]) + " over what " + executors[store] + " has stored since it loaded the word", i })));
const spoilt = () => counted([...unkept].map(([i, { called, changed }]) => ({ text: placeOf(called.place)
  + " returns with another " + changed.map((number) => NAMES[number]).join(", ") + " than it was called with", i })));

// Since which event a task is in its state; -1 where it was at the first position.
function since(id) {
  let found = -1;
  let name = run.tasks.find((task) => task[0] === id)[1];
  events.forEach((event, i) => {
    for (const entry of event.s || []) {
      if (entry[0] !== id) continue;
      if (entry[1] !== name) found = i;
      name = entry[1];
    }
  });
  return found;
}

function waiting(state) {
  return state.tasks.filter((task) => task[4] !== undefined).map(([id, name, , , reason, object, due]) => ({
    text: "task " + id + " is " + name + " " + reason + (object ? " " + object : "")
      + (due === undefined ? "" : ", until tick " + due), i: since(id) }))
    .map(({ text, i }) => ({ text: text + (i < 0 && from > 0 ? ", since " + BEFORE : ""), i }));
}

// Processors that an exception has stopped before the first event here.
const stopped = (state) => run.cpus
  .filter(([number, kind]) => kind === "stopped" && state.cpus[number - 1].who === "stopped")
  .map(([number]) => ({ text: "processor " + number + " is stopped by an exception " + BEFORE }));

// A link to the position after an event, by its number in the run; of one before this page words that say so.
const linkTo = (at) => (at < from ? ["event " + at + ", " + BEFORE] : [eventLink(at - from, "event " + at)]);

// The tasks that wait for each other, of which each waits for a semaphore whose units none but they have, or a mutex:
// texts and links.
const circle = () => run.circle.flatMap(([id, lock, units, mutex], k) => [(k === 0 ? "" : "; ") + "task " + id
  + " waits for " + (mutex ? "mutex " : "semaphore ") + lock + ", which ", ...units.flatMap(([task, at], n) =>
  [(n === 0 ? "" : " and ") + "task " + task + " took at ", ...linkTo(at)])]);

// How many own steps a processor that goes round needs for a round that changes nothing; 0 if none is seen.
function round(number, end) {
  const own = [];
  for (let i = events.length - 1; i >= 0 && own.length < 513; i--) {
    const event = events[i];
    if ((event.d || []).some((entry) => entry[0] === number)) break;
    if (event.c !== number) continue;
    if (event.t !== undefined || isStore(event) || !event.r) break;
    own.unshift(i);
  }
  if (own.length === 0) return 0;
  const state = stateAt(from + own[0]);
  const { pc, regs } = end.cpus[number - 1];
  let found = 0;
  for (let i = own[0], done = 0; done < own.length; i++) {
    const cpu = state.cpus[number - 1];
    if (i === own[done]) {
      if (cpu.pc === pc && cpu.regs.every((word, k) => word === regs[k])) found = own.length - done;
      done++;
    }
    happen(state, events[i]);
  }
  return found;
}

function spins(state) {
  return state.cpus.flatMap((cpu) => {
    if (!cpu.executes || state.off) return [];
    const who = "processor " + cpu.number + ", " + cpu.who + ", ";
    const last = events.findLastIndex((event) => event.c === cpu.number);
    const asks = last < 0 || !events[last].q ? null : /spins for lock (\d+)/.exec(events[last].t);
    if (asks) return [{ text: who + "spins: it asks for spin lock " + asks[1] + ", which is held" }];
    const steps = round(cpu.number, state);
    return steps === 0 ? [] : [{ text: who + "spins at " + placeOf(cpu.pc) + ": its last " + steps
      + " instructions changed nothing" }];
  });
}

// All that is said of the end: a heading, and lines.
function endOf() {
  const state = stateAt(to);
  const off = events.findIndex((event) => event.x);
  const heads = [off >= 0 ? "the board went off at " + after(off) : state.off ? "the board is off" : "the board is on"];
  const found = [];
  const add = (name, rows) => {
    if (rows.length > 0) heads.push(rows.length === 1 ? name[0] : rows.length + " " + name[1]);
    found.push(...rows);
  };
  if (run.deadlock === 1) {
    add(["deadlock"], [{ text: "deadlock: no task is ready, and no tick and no pending interrupt releases one that "
      + "waits" }]);
  }
  const those = circle();
  if (those.length > 0) add(["circular wait"], [{ parts: ["circular wait: ", ...those] }]);
  add(["a processor spins", "processors spin"], spins(state));
  add(["an exception", "exceptions"], stopped(state).concat(faults()));
  add(["a store over an unseen one", "kinds of stores over unseen ones"], overwritten());
  add(["a register that a function didn't keep", "kinds of registers that functions didn't keep"], spoilt());
  add(["an error of a call", "kinds of errors of calls"], refused());
  add(["an interrupt without effect", "interrupts without effect"], lost());
  found.push(...waiting(state));
  if (from > 0) {
    found.push({ text: "of what went wrong before event " + from + ", with which this page begins, no more is said "
      + "here: trace --summary has it" });
  }
  return { heads, found };
}

// How many lines of the end are shown.
const MOST = 40;

function showEnd() {
  const { heads, found } = endOf();
  byId("end").textContent = (to === from ? "At the only position: " : "In the end: ") + heads.join("; ") + ".";
  const rows = found.slice(0, MOST).map(({ text, parts, i }) => {
    const line = make("li");
    if (i !== undefined && i >= 0) line.append(eventLink(i, after(i)), ": ");
    line.append(...(parts || [text]));
    return line;
  });
  if (found.length > MOST) rows.push(make("li", "and " + (found.length - MOST) + " more"));
  if (rows.length === 0) rows.push(make("li", "no task waits, and nothing of note has happened"));
  byId("ends").querySelector("ul").replaceChildren(...rows);
  byId("ends").hidden = false;
}

// ---- the page

let position = from;
let state = firstState();
let chosenCpu = run.cpus.length > 0 ? run.cpus[0][0] : 1;
let item = null;
// Where the last answer to "who wrote this last?" has led, so that the next one goes on from there.
let asked = null;
// What will put the position into the address, once no move comes for a while: browsers refuse many changes in a row.
let addressed = 0;

const svg = document.querySelector("#picture svg");
const cursor = svg && document.createElementNS("http://www.w3.org/2000/svg", "line");
// The picture's lanes, as brd_timeline lays them out.
const LEFT = 140, SPAN = 1000, TOP = 52;
if (cursor) {
  cursor.setAttribute("y1", TOP);
  // (The first line is the axis of events.)
  cursor.setAttribute("y2", svg.querySelector("line").y1.baseVal.value + 4);
  for (const [name, value] of [["id", "cursor"], ["stroke", "#0057a8"], ["stroke-width", "2"],
    ["pointer-events", "none"]]) cursor.setAttribute(name, value);
  svg.append(cursor);
  svg.addEventListener("click", (event) => {
    const matrix = svg.getScreenCTM();
    if (!matrix) return;
    const x = new DOMPoint(event.clientX, event.clientY).matrixTransform(matrix.inverse()).x;
    go(from + Math.round((x - LEFT) / SPAN * events.length));
  });
}

// Puts the mark of the position into the picture, and scrolls that so that it is seen.
function showCursor() {
  if (!cursor) return;
  const x = LEFT + (events.length === 0 ? 0 : SPAN * (position - from) / events.length);
  cursor.setAttribute("x1", x);
  cursor.setAttribute("x2", x);
  const box = svg.parentElement;
  const place = x / svg.viewBox.baseVal.width * svg.clientWidth - box.scrollLeft;
  if (place < 0 || place > box.clientWidth) box.scrollLeft += place - box.clientWidth / 2;
}

// A button that stands for an item.
function itemButton(own) {
  const button = make("button", "", "item");
  button.type = "button";
  button.tabIndex = -1;
  button.item = own;
  button.addEventListener("click", () => choose(own));
  return button;
}

const isSame = (one, other) => one !== null && other !== null && one.word === other.word && one.cpu === other.cpu
  && one.register === other.register;

// What the last event has changed: "cpu register" and words.
function changes() {
  const last = position > from ? events[position - from - 1] : null;
  const found = new Set();
  if (last === null) return found;
  for (let i = 0; last.r && i < last.r.length; i += 2) found.add(last.c + " " + last.r[i]);
  if (isStore(last)) found.add("word " + last.m[0]);
  const before = last.d ? stateAt(position - 1) : null;
  for (const entry of last.d || []) {
    const old = before.cpus[entry[0] - 1];
    for (const number of SHOWN) {
      if (old.regs[number] !== state.cpus[entry[0] - 1].regs[number]) found.add(entry[0] + " " + number);
    }
  }
  return found;
}

// ---- processors

const panels = run.cpus.map((entry) => {
  const panel = { number: entry[0], title: make("h3"), who: make("p", "", "mono"), buttons: [] };
  const list = make("ul", undefined, "registers");
  list.setAttribute("aria-label", "registers of processor " + panel.number);
  for (const register of SHOWN) {
    const line = make("li");
    const button = itemButton({ cpu: panel.number, register });
    panel.buttons.push(button);
    line.append(button);
    list.append(line);
  }
  panel.list = list;
  byId("processors").querySelector("div").append(panel.title, panel.who, list);
  return panel;
});

function label(button, text, spoken, isChanged) {
  button.textContent = text;
  button.setAttribute("aria-label", spoken + (isChanged ? ", just written" : "") + ": who wrote this last?");
  button.setAttribute("aria-pressed", String(isSame(button.item, item)));
  button.classList.toggle("changed", isChanged);
}

const textAt = (address) => (rowAt.has(address) ? " " + plain(withNames(run.listing[rowAt.get(address)][2])) : "");

function showProcessors(changed) {
  for (const panel of panels) {
    const cpu = state.cpus[panel.number - 1];
    panel.title.textContent = "Processor " + panel.number + ": " + (state.off ? "off" : cpu.who);
    panel.who.textContent = cpu.executes ? "next: " + hex(cpu.pc) + " " + placeOf(cpu.pc) + textAt(cpu.pc)
      + (cpu.regs[SLOT] ? ", in the delay slot of" + textAt(cpu.pc - 4) : "") : "executes nothing";
    panel.list.hidden = !cpu.executes;
    panel.buttons.forEach((button) => {
      const { register } = button.item;
      const word = cpu.regs[register];
      const name = NAMES[register];
      const isChanged = changed.has(panel.number + " " + register);
      label(button, name.padEnd(4) + hex(word), name + " of processor " + panel.number + " is " + hex(word), isChanged);
      button.classList.toggle("zero", word === 0);
    });
  }
}

// ---- memory

const wordRows = run.words.map(([address]) => {
  const row = { line: make("tr"), button: null, cells: [] };
  const first = make("td");
  row.button = itemButton({ word: address });
  first.append(row.button);
  row.line.append(first);
  for (const text of [hex(address), "", "", "", ""]) {
    const cell = make("td", text);
    row.cells.push(cell);
    row.line.append(cell);
  }
  return row;
});

function showMemory(changed) {
  const last = position > from ? events[position - from - 1] : null;
  wordRows.forEach((row, i) => {
    const address = run.words[i][0];
    const isChanged = changed.has("word " + address);
    const touched = last !== null && last.m !== undefined && last.m[0] === address;
    label(row.button, wordName(address), wordName(address) + " is " + hex(state.words[i]), isChanged);
    row.line.classList.toggle("changed", isChanged);
    row.cells[1].textContent = hex(state.words[i]);
    row.cells[2].textContent = signed(state.words[i]);
    row.cells[3].textContent = characters(state.words[i]);
    row.cells[4].textContent = !touched ? "" : isChanged ? "stored" : "loaded";
  });
}

// ---- the stack of who executes

// How many words of a stack are shown.
const DEEP = 64;

// The functions that somebody is in, after some events: the innermost one.
function insideOf(who, count) {
  for (let i = count - 1; i >= 0; i--) if (executors[i] === who) return inside[i];
  return undefined;
}

// Who stored a word of the stack, and what: "$ra of print".
function savedBy(address) {
  const i = lastWriter({ word: address }, state, position - from);
  if (i < 0) return "";
  const found = /^sw (\$\w+), .*\$[sf]p\)$/.exec(instructionOf(i));
  const place = inside[i] ? inside[i].place : events[i].a;
  return (found ? found[1] + " in " : "in ") + placeOf(place) + ", event " + (from + i);
}

function stackRow(address, sp) {
  const line = make("tr", undefined, isStoredNow(address) ? "changed" : "");
  const word = state.words[wordAt.get(address)];
  for (const text of ["$sp" + (address === sp ? "" : "+" + (address - sp)), hex(address), hex(word), meaning(word),
    savedBy(address)]) line.append(make("td", text));
  return line;
}

const isStoredNow = (address) => position > from && isStore(events[position - from - 1])
  && events[position - from - 1].m[0] === address;

// The functions that somebody is in, from the innermost one outwards, in words.
function pathOf(who) {
  const path = [];
  let called = insideOf(who, position - from);
  for (; called && path.length < 8; called = called.outer) {
    path.push("in " + placeOf(called.place) + ", called at " + placeOf(events[called.at].a));
  }
  return path.join("; ") + (called ? "; \u2026" : "");
}

function showStack() {
  const { who, regs, executes } = state.cpus[followedCpu() - 1] || { regs: [] };
  const sp = regs[SP], { top } = stacks.get(who) || {}, rows = [];
  for (let i = 0; executes && top > sp && i < DEEP && sp + 4 * i < top; i++) {
    if (wordAt.has(sp + 4 * i)) rows.push(stackRow(sp + 4 * i, sp));
  }
  const box = byId("stack");
  box.querySelector("tbody").replaceChildren(...rows);
  box.querySelector(".scrolls").hidden = rows.length === 0;
  const used = top >= sp && sp !== 0 ? ": " + (top - sp) + " bytes are in use" : "";
  byId("path").textContent = !executes ? "nobody executes here"
    : [who + used, pathOf(who)].filter((text) => text !== "").join("; ");
}

// ---- data in the listing

// What is known of the words behind each label: whether one is executed; whether one is loaded or stored; and whether
// one is an instruction other than NOP, which is the word 0.
const regions = new Map();
for (const [address, name, text] of run.listing) {
  const label = labelOf(name);
  if (!regions.has(label)) regions.set(label, { runs: false, holds: false, acts: false });
  const region = regions.get(label);
  if (executed.has(address)) region.runs = true;
  if (wordAt.has(address)) region.holds = true;
  if (text !== "nop" && !text.startsWith(".word")) region.acts = true;
}

// Whether a row of the listing is of data: nobody executes it, and it is loaded or stored, or is no instruction, or all
// behind its label is so.
function isData([address, name, text]) {
  const { runs, holds, acts } = regions.get(labelOf(name));
  return !executed.has(address)
    && (wordAt.has(address) || text.startsWith(".word") || (!runs && (holds || !acts)));
}

const asData = (word) => ".word 0x" + hex(word) + "  # " + signed(word) + ", \"" + characters(word) + "\"";

// What a row of the listing says: data are as they are now, if that is known.
function rowText(row) {
  const [address, , text] = row;
  if (!isData(row)) return plain(withNames(text)) + (calls.has(address) ? "  # " + calls.get(address) : "");
  if (wordAt.has(address)) return asData(state.words[wordAt.get(address)]);
  if (text === "nop") return asData(0);
  return text.startsWith(".word") ? asData(Number(text.slice(6))) : plain(text) + "  # not executed";
}

// ---- the text of the source, if the reader gives it

const placeNamed = new Map([...run.listing, ...run.words].map(([address, name]) => [name, address]));
// The instructions that shorthands stand for, and directives behind which the next thing stands where they do.
const SHORT = { nop: "sll", move: "addu", b: "beq", beqz: "beq", bnez: "bne", bal: "bgezal" };
const STILL = [".globl", ".set", ".equ", ".byteorder"];

const mnemonicOf = (text) => {
  const name = text.toLowerCase().split(" ")[0];
  return SHORT[name] || name;
};

// The lines of assembler source by address, as far as these are known: each instruction is a word. Where one is another
// than that of the listing, the number of that line.
function assembled(lines) {
  const found = new Map();
  let place = 0x80000000;
  for (const [i, line] of lines.entries()) {
    let text = line.replace(/^\s+/, "");
    for (let label; (label = /^([\w.$]+)\s*:\s*/.exec(text)); text = text.slice(label[0].length)) {
      if (placeNamed.has(label[1])) place = placeNamed.get(label[1]);
    }
    const name = (/^[.\w]+/.exec(text) || [""])[0].toLowerCase();
    if (name === "" || STILL.includes(name) || place === undefined) continue;
    const row = rowAt.get(place);
    const own = row === undefined || isData(run.listing[row]) ? "" : mnemonicOf(run.listing[row][2]);
    if (name[0] !== "." && own !== "" && mnemonicOf(name) !== own) return i + 1;
    found.set(place, line.trim().replace(/\s+/g, " "));
    if (name[0] !== ".") place += 4;
    else place = name === ".word" ? place + 4 * text.split("#")[0].split(",").length : undefined;
  }
  return found;
}

// The lines of another source by address: those of a file of this name.
function compiled(name, lines) {
  const found = new Map();
  for (const [address, place] of lineOf) {
    const [, file, line] = /^(.*):(\d+)$/.exec(place);
    if (file !== name) continue;
    if (line > lines.length) return Number(line);
    found.set(address, lines[line - 1].trim().replace(/\s+/g, " "));
  }
  return found;
}

// Puts the lines of a file beside the words that they have made, and answers what is to be said of it.
function giveSource(name, text) {
  const lines = text.split(/\r?\n/);
  const found = lineOf.size > 0 ? compiled(name, lines) : assembled(lines);
  if (typeof found === "number") {
    return name + " isn't the source of this run: line " + found + (lineOf.size > 0 ? " isn't there."
      : " has another instruction than the listing.");
  }
  if (found.size === 0) return name + " has no line of the listing.";
  for (const [address, line] of found) sourceOf.set(address, line);
  return "The lines of " + name + " stand in the listing.";
}

byId("source").addEventListener("change", () => {
  const files = [...byId("source").files];
  Promise.all(files.map((file) => file.text())).then((texts) => {
    const said = texts.map((text, i) => giveSource(files[i].name, text));
    firstRow = -1;
    show();
    say(said.join("\n"));
  });
});

// What the listing says of the source of a row: the line with its text, where that is known. Where the row before is of
// the same line it isn't said again.
function sourceText(i) {
  const [address] = run.listing[i];
  const line = lineOf.get(address), text = sourceOf.get(address);
  if (line === undefined) return text || "";
  const before = run.listing[i - 1];
  if (before && before[0] + 4 === address && lineOf.get(before[0]) === line) return "";
  return text === undefined ? line : line + "  " + text;
}

// ---- the listing

const listing = byId("listing");
const listBody = listing.querySelector("tbody");
let firstRow = -1;

// The processor whose next instruction is kept in sight: the chosen one, or another if that executes nothing.
function followedCpu() {
  const executing = state.cpus.filter((cpu) => cpu.executes).map((cpu) => cpu.number);
  return executing.includes(chosenCpu) || executing.length === 0 ? chosenCpu : executing[0];
}

// Which rows are shown: all, or those near the next instruction of that processor.
function showListing() {
  const followed = followedCpu();
  const centre = centreRow(followed);
  const start = run.listing.length <= ROWS ? 0
    : Math.max(0, Math.min(run.listing.length - ROWS, centre - (centre % (ROWS / 4)) - ROWS / 2));
  if (start !== firstRow) {
    firstRow = start;
    byId("views").classList.toggle("has-source", sourceOf.size + lineOf.size > 0);
    byId("views").classList.toggle("has-lines", lineOf.size > 0);
    listBody.replaceChildren();
    for (let i = start; i < Math.min(start + ROWS, run.listing.length); i++) putRow(i);
  }
  for (const line of listBody.rows) {
    if (line.address === undefined) continue;
    const here = state.cpus.filter((cpu) => cpu.executes && !state.off && cpu.pc === line.address)
      .map((cpu) => cpu.number);
    line.classList.toggle("here", here.length > 0);
    if (line.isData) line.cells[3].textContent = rowText(line.row);
    line.cells[0].textContent = here.length === 0 ? "" : "cpu " + here.join(", ") + " \u25b8";
    if (here.includes(followed)) {
      line.setAttribute("aria-current", "step");
      reveal(line);
    } else line.removeAttribute("aria-current");
    const button = line.querySelector(".item");
    if (button) button.tabIndex = here.includes(followed) ? 0 : -1;
  }
}

function centreRow(followed) {
  const cpu = state.cpus[followed - 1];
  const row = cpu && cpu.executes ? rowAt.get(cpu.pc) : undefined;
  if (row !== undefined) return row;
  return firstRow < 0 ? 0 : firstRow + ROWS / 2;
}

function putRow(i) {
  const [address, name] = run.listing[i];
  if (i > 0 && run.listing[i - 1][0] + 4 !== address) {
    const gap = make("tr", undefined, "gap");
    const cell = make("td", "\u2026");
    cell.colSpan = 5;
    gap.append(cell);
    listBody.append(gap);
  }
  const line = make("tr", undefined, name.includes("+0x") ? "" : "label");
  Object.assign(line, { address, row: run.listing[i], isData: isData(run.listing[i]) });
  const cell = make("td");
  cell.append(line.isData ? hex(address) : lineButton(address));
  if (!line.isData && !executed.has(address)) line.classList.add("unused");
  line.append(make("td"), cell, make("td", plain(shortName(i))), make("td", rowText(run.listing[i])),
    make("td", plain(sourceText(i)), "source"));
  listBody.append(line);
}

// The name of a row, without the label if the row before has the same.
function shortName(i) {
  const [address, name] = run.listing[i];
  const before = run.listing[i - 1];
  return before && before[0] + 4 === address && labelOf(before[1]) === labelOf(name)
    ? name.slice(labelOf(name).length) : name;
}

// A button that runs on to a line.
function lineButton(address) {
  const button = make("button", hex(address), "item");
  button.type = "button";
  button.tabIndex = -1;
  button.line = address;
  button.setAttribute("aria-label", hex(address) + ": on to where " + placeOf(address) + " is executed next");
  button.title = "on to here";
  button.addEventListener("click", (event) => runTo(address, event.shiftKey ? -1 : 1));
  return button;
}

// Goes to where somebody is about to execute an address, next or last.
function runTo(address, step) {
  let i = position - from + step;
  if (step > 0 && !isAt(position - from, address)) i = position - from;
  while (i >= 0 && i < events.length && !isAt(i, address)) i += step;
  if (i < 0 || i >= events.length) {
    return say(placeOf(address) + " is executed no " + (step > 0 ? "more" : "earlier") + " in this page.");
  }
  chosenCpu = events[i].c;
  go(from + i, "Here " + actor(i) + " is about to execute " + placeOf(address) + ".");
}

const isAt = (i, address) => i < events.length && events[i].a === address && executors[i] !== "" && !events[i].q;

// Scrolls the listing, and nothing else, so that a row is seen.
function reveal(line) {
  const box = listing.querySelector(".scrolls");
  const top = line.getBoundingClientRect().top - box.getBoundingClientRect().top;
  if (top < 30 || top > box.clientHeight - 50) box.scrollTop += top - box.clientHeight / 2;
}

// ---- tasks, console, events

function showTasks() {
  const body = byId("tasks").querySelector("tbody");
  const last = position > from ? events[position - from - 1] : {};
  const changed = new Set((last.s || []).map((entry) => entry[0]));
  body.replaceChildren(...state.tasks.map(([id, name, priority, cpu, waits, object, due]) => {
    const runs = !state.off && state.cpus.some((one) => one.who === "task " + id);
    const line = make("tr", undefined, changed.has(id) ? "changed" : "");
    const reason = waits === undefined ? "" : waits + (object ? " " + object : "")
      + (due === undefined ? "" : ", until tick " + due);
    for (const text of ["task " + id, runs ? "running" : name, String(priority), String(cpu), reason]) {
      line.append(make("td", text));
    }
    return line;
  }));
  byId("time").textContent = "tick " + state.tick + (state.off ? "; the board is off" : "");
}

// A link to the position after an event.
function eventLink(i, text) {
  const link = make("a", text);
  link.href = "#event=" + (from + i);
  link.dataset.event = from + i;
  link.setAttribute("aria-label", "to the position after event " + (from + i));
  link.addEventListener("click", (event) => {
    event.preventDefault();
    go(from + i + 1);
  });
  return link;
}

function showEvents() {
  const shown = [];
  const focused = document.activeElement && document.activeElement.closest("#events a");
  const count = position - from;
  for (let i = Math.max(0, count - 5); i < Math.min(events.length, count + 4); i++) {
    const line = make("li");
    line.append(eventLink(i, String(from + i)), " " + wordsOf(i));
    if (i === count - 1) line.setAttribute("aria-current", "true");
    if (i >= count) line.className = "later";
    shown.push(line);
  }
  const list = byId("events").querySelector("ol");
  list.replaceChildren(...shown);
  const again = focused && list.querySelector(`[data-event="${focused.dataset.event}"]`);
  if (again) again.focus();
}

// ---- moves

const say = (text) => { byId("said").textContent = text; };

// Shows a position, and says what led to it, after an answer where there is one.
function go(wanted, answer) {
  position = Math.max(from, Math.min(to, wanted));
  state = stateAt(position);
  if (answer === undefined) asked = null;
  show();
  const said = [];
  if (answer) said.push(answer);
  said.push("Position " + position + (position > from ? ", after event " + (position - 1) + ": "
    + wordsOf(position - from - 1) + "." : ", the first of this page."));
  const last = position - from - 1;
  if (last >= 0) said.push(sourceLine(last), writtenOver(last), notKept(last));
  say(said.filter((text) => text !== "").join("\n"));
  clearTimeout(addressed);
  addressed = setTimeout(() => history.replaceState(null, "", "#at=" + position), 100);
}

function show() {
  const changed = changes();
  showCursor();
  showListing();
  showProcessors(changed);
  showMemory(changed);
  showStack();
  showTasks();
  byId("console").querySelector("pre").textContent = lines(output.slice(0, state.printed));
  showEvents();
  byId("at").value = position;
  byId("slider").value = position;
  byId("slider").setAttribute("aria-valuetext", "position " + position + " of " + from + " to " + to);
  byId("cpu").value = chosenCpu;
  document.querySelector(".chosen").textContent = item === null ? "this" : nameOf(item);
  for (const button of document.querySelectorAll("button.item")) {
    if (button.item) button.tabIndex = isSame(button.item, item) || button.isFirst ? 0 : -1;
  }
}

// Goes to the first event in a direction that is as wanted, and says so where there is none.
function find(step, isWanted, what) {
  let i = position - from + (step > 0 ? 0 : -2);
  while (i >= 0 && i < events.length && !isWanted(events[i])) i += step;
  if (i >= 0 && i < events.length) go(from + i + 1);
  else say("There is no " + (step > 0 ? "later " : "earlier ") + what + ".");
}

const isHappening = (event) => event.t !== undefined && !event.q;
const isOwn = (event) => event.c === chosenCpu;

function choose(own) {
  item = own;
  asked = null;
  if (own.cpu !== undefined) chosenCpu = own.cpu;
  show();
  const i = lastWriter(own, state, position - from);
  say(nameOf(own) + " is chosen. " + (i < 0 ? "No event of this page up to here wrote it."
    : "It was written last by event " + (from + i) + ": " + wordsOf(i) + "."));
}

function cycle(items, step) {
  if (items.length === 0) return say("There is none to choose.");
  const now = items.findIndex((own) => isSame(own, item));
  const next = now < 0 ? (step > 0 ? 0 : items.length - 1) : (now + step + items.length) % items.length;
  choose(items[next]);
  const button = [...document.querySelectorAll("button.item")].find((one) => one.item && isSame(one.item, item));
  if (button) button.focus();
}

function askLast() {
  if (item === null) return say("Choose a register or a word first.");
  // Where an answer has led, the next one goes on from the state before that event.
  const again = asked !== null && asked.at === position && isSame(asked.item, item);
  const below = again ? position - from - 1 : position - from;
  const i = lastWriter(item, again ? stateAt(position - 1) : state, below);
  if (i < 0) return say("No event of this page wrote " + nameOf(item) + (again ? " before that." : " up to here."));
  asked = { item, at: from + i + 1 };
  go(from + i + 1, "Event " + (from + i) + " wrote " + nameOf(item) + (again ? " before that." : " last."));
}

function askNext() {
  if (item === null) return say("Choose a register or a word first.");
  const i = nextWriter(item, state, position - from);
  if (i < 0) return say("No later event of this page writes " + nameOf(item) + ".");
  asked = { item, at: from + i + 1 };
  go(from + i + 1, "Event " + (from + i) + " writes " + nameOf(item) + ".");
}

const moves = {
  "first": () => go(from),
  "last": () => go(to),
  "on": () => go(position + 1),
  "back": () => go(position - 1),
  "later-own": () => find(1, isOwn, "event of processor " + chosenCpu),
  "earlier-own": () => find(-1, isOwn, "event of processor " + chosenCpu),
  "later-happening": () => find(1, isHappening, "happening"),
  "earlier-happening": () => find(-1, isHappening, "happening"),
  "last-writer": askLast,
  "next-writer": askNext,
};

// ---- playing

let timer = 0;

// Plays on, some events a second, until the last one or until somebody stops it. Meanwhile nothing is read aloud.
function play() {
  if (timer !== 0) return pause();
  if (position === to) go(from);
  const speed = Number(byId("speed").value);
  const between = Math.max(1000 / speed, 50);
  byId("said").setAttribute("aria-live", "off");
  byId("play").textContent = "Pause";
  timer = setInterval(() => {
    go(position + Math.round(speed * between / 1000));
    if (position === to) pause();
  }, between);
}

function pause() {
  clearInterval(timer);
  timer = 0;
  byId("said").setAttribute("aria-live", "polite");
  byId("play").textContent = "Play";
}

moves.play = play;
byId("speed").addEventListener("change", () => {
  if (timer === 0) return;
  pause();
  play();
});
byId("slider").addEventListener("input", () => go(Number(byId("slider").value)));

const KEYS = { ArrowRight: moves.on, ArrowLeft: moves.back, Home: moves.first, End: moves.last, c: moves["later-own"],
  C: moves["earlier-own"], h: moves["later-happening"], H: moves["earlier-happening"], w: askLast, W: askNext,
  m: () => cycle(words(), 1), M: () => cycle(words(), -1), r: () => cycle(registers(), 1),
  R: () => cycle(registers(), -1), g: () => byId("at").select(), p: play, l: toListing };

// Puts the focus on the line of the listing where the followed processor is.
function toListing() {
  const button = listBody.querySelector("[aria-current] .item");
  if (button) button.focus();
  else say("No line of the listing is next.");
}

// The items of memory, and those of the chosen processor.
const words = () => wordRows.map((row) => row.button.item);
const registers = () => panels.filter((panel) => panel.number === chosenCpu && !panel.list.hidden)
  .flatMap((panel) => panel.buttons.map((button) => button.item));

// Whether an element has a use of its own for a key.
function needsKey(element, key) {
  if (element.id === "slider") return /^(Arrow|Page|Home|End)/.test(key);
  if (element.closest("#at, select, #source")) return key !== "Escape";
  return false;
}

// What up and down do in a list of buttons.
function moveIn(button, step) {
  if (button.item) return cycle(button.item.word === undefined ? registers() : words(), step);
  const all = [...listBody.querySelectorAll(".item")];
  const next = all[all.indexOf(button) + step];
  if (next) next.focus();
}

document.addEventListener("keydown", (event) => {
  if (event.ctrlKey || event.altKey || event.metaKey || needsKey(event.target, event.key)) return;
  const cpu = Number(event.key);
  const vertical = { ArrowDown: 1, ArrowUp: -1 }[event.key];
  if (vertical && event.target.matches("button.item")) moveIn(event.target, vertical);
  else if (event.key === "Escape" && event.target.closest("#at, select")) leaveField();
  else if (KEYS[event.key]) KEYS[event.key]();
  else if (panels.some((panel) => panel.number === cpu)) chooseCpu(cpu);
  else return;
  event.preventDefault();
});

// Leaves a field for the button of the next step, so that keys are moves again.
function leaveField() {
  byId("at").value = position;
  byId("on").focus();
}

function chooseCpu(cpu) {
  chosenCpu = cpu;
  show();
  say("Processor " + cpu + " is chosen.");
}

for (const button of document.querySelectorAll("[data-do]")) {
  button.addEventListener("click", moves[button.dataset.do]);
}
const goToField = () => go(/^[0-9]+$/.test(byId("at").value) ? Number(byId("at").value) : position);
byId("at").addEventListener("change", goToField);
byId("at").addEventListener("keydown", (event) => {
  if (event.key !== "Enter") return;
  event.preventDefault();
  goToField();
  leaveField();
});
byId("cpu").addEventListener("change", () => chooseCpu(Number(byId("cpu").value)));
window.addEventListener("hashchange", goToAddress);

// The page is called as its file is, without the ending.
function showName() {
  let file = location.pathname.split("/").pop();
  try {
    file = decodeURIComponent(file);
  } catch {
    // (It has a % that stands for itself, and stays as it is.)
  }
  file = file.replace(/\.html?$/, "");
  if (file === "") return;
  document.title = plain(file) + ": a run of the board";
  document.querySelector("h1").textContent = document.title;
}

function goToAddress() {
  const found = /^#(at|event)=([0-9]+)$/.exec(location.hash);
  go(found ? Number(found[2]) + (found[1] === "event" ? 1 : 0) : position);
}

for (const panel of panels) {
  const option = make("option", String(panel.number));
  option.value = panel.number;
  byId("cpu").append(option);
  if (panel.buttons.length > 0) panel.buttons[0].isFirst = true;
}
if (wordRows.length > 0) wordRows[0].button.isFirst = true;
byId("memory").querySelector("tbody").append(...wordRows.map((row) => row.line));
byId("range").textContent = "of " + from + " to " + to;
if (run.asked < from) {
  byId("left-out").textContent = "The last " + grouped(events.length) + " of " + grouped(to - run.asked)
    + " events: a page has no room for more. The others are shown by --from and --to.";
  byId("left-out").hidden = false;
}
byId("slider").min = from;
byId("slider").max = to;
byId("order").hidden = isBig !== undefined;
showName();
showEnd();
byId("run").hidden = false;
goToAddress();
</script>
</body>
</html>
"##;
