//! The script of the page.

/// The first part of the script: the data, and what a cell is. It has no double quotes and no backslashes.
pub const CELLS: &str = "
'use strict';
const byId = id => document.getElementById(id);
const { programs, kernels, reasons } = JSON.parse(byId('data').textContent);
const WORDS = { o: 'ok', b: 'breaks', n: 'no target', u: 'unread' };
const make = (tag, text, name) => {
  const made = document.createElement(tag);
  if (text !== undefined) made.textContent = text;
  if (name) made.className = name;
  return made;
};
const has = (runs, number) => {
  for (let at = 0; at < runs.length; at += 2) if (number >= runs[at] && number <= runs[at + 1]) return true;
  return false;
};
const count = runs => {
  let all = 0;
  for (let at = 0; at < runs.length; at += 2) all += runs[at + 1] - runs[at] + 1;
  return all;
};
const judged = kernels.filter(kernel => kernel[1] !== null).length;
const letter = (kernel, program) => kernels[kernel][1] === null ? 'u' : kernels[kernel][1][program];
const title = ([, subject, kinds, outcome]) => [subject, ...kinds.map(kind => `<${kind}>`), outcome].join('  ');
const locationText = ([program, slot, instruction, within, start, file, line]) => [
  programs[program],
  slot === null ? '' : `slot ${slot}${instruction === null ? '' : `: ${instruction}`}`,
  within === null ? '' : `(${within}+${start})`,
  file === null ? '' : `${file}:${line}`,
].filter(Boolean).join('  ');
const reasonsOf = (kernel, program) => reasons
  .filter(reason => has(reason[4], kernel))
  .map(reason => [reason, reason[5].filter(location => location[0] === program && has(location[8], kernel))])
  .filter(([reason, locations]) => locations.length || !reason[5].length);
const reasonItem = (reason, locations, more) => {
  const item = make('li');
  item.append(make('code', title(reason)), more);
  const list = make('ul');
  for (const location of locations) {
    const place = make('li', locationText(location));
    if (location[7]) place.append(make('code', location[7], 'source'));
    list.append(place);
  }
  if (locations.length) item.append(list);
  return item;
};
const show = (kernel, program) => {
  const cell = byId('cell');
  if (!programs.length) return cell.replaceChildren(make('p', 'No programs.'));
  const word = WORDS[letter(kernel, program)];
  cell.replaceChildren(make('h2', `${programs[program]} on ${kernels[kernel][0]}: ${word}`));
  if (word === 'unread') return cell.append(make('p', kernels[kernel][2]));
  const list = make('ul');
  for (const [reason, locations] of reasonsOf(kernel, program)) list.append(reasonItem(reason, locations, ''));
  cell.append(list.children.length ? list : make('p', 'No reason to break.'));
};
";

/// The second part of the script: the table, its filters and its keys.
pub const TABLE: &str = "
const rows = kernels.map((kernel, number) => {
  const row = make('tr');
  const name = make('th', kernel[0]);
  name.scope = 'row';
  row.append(name);
  programs.forEach((_, program) => {
    const kind = letter(number, program);
    const cell = make('td', WORDS[kind], kind);
    cell.tabIndex = -1;
    row.append(cell);
  });
  return row;
});
const head = make('tr');
for (const name of ['kernel', ...programs]) {
  const cell = make('th', name);
  cell.scope = 'col';
  head.append(cell);
}
byId('head').append(head);
byId('body').append(...rows);
const option = (list, text, value) => {
  const made = make('option', text);
  made.value = value;
  byId(list).append(made);
};
programs.forEach((name, program) => option('program', name, program));
reasons.forEach((reason, number) => option('reason', title(reason), number));
reasons.forEach(reason => byId('list').append(
  reasonItem(reason, reason[5], `  on ${count(reason[4])} of ${judged} kernels${reason[5].length ? '' : ', all programs'}`)));
const PAGE = 20;
let current = [0, 0];
const cellAt = ([kernel, program]) => program < 0 ? undefined : rows[kernel]?.children[program + 1];
const enter = to => {
  const cell = cellAt(to);
  if (!cell) return;
  cellAt(current).tabIndex = -1;
  current = to;
  cell.tabIndex = 0;
  cell.focus();
};
const step = (from, by, size, isShown, times = 1) => {
  let found = from;
  for (let at = from + by; at >= 0 && at < size && times > 0; at += by) if (isShown(at)) { found = at; times -= 1; }
  return found;
};
const isRow = kernel => !rows[kernel].hidden;
const isColumn = program => !head.children[program + 1].hidden;
const filter = () => {
  const program = byId('program').value, reason = byId('reason').value;
  const text = byId('kernel').value.toLowerCase(), failing = byId('failing').checked;
  const wanted = programs.map((_, number) => program === '' || Number(program) === number);
  const isOf = kernel => reason === '' || (has(reasons[reason][4], kernel) && (program === ''
    || reasonsOf(kernel, Number(program)).some(([found]) => found === reasons[reason])));
  let shown = 0;
  rows.forEach((row, kernel) => {
    row.hidden = !kernels[kernel][0].toLowerCase().includes(text)
      || !isOf(kernel)
      || (failing && !wanted.some((is, number) => is && letter(kernel, number) !== 'o'));
    if (!row.hidden) shown += 1;
  });
  for (const row of [head, ...rows]) wanted.forEach((is, number) => { row.children[number + 1].hidden = !is; });
  byId('shown').textContent = `${shown} of ${kernels.length} kernels`;
  const first = [step(-1, 1, rows.length, isRow), step(-1, 1, programs.length, isColumn)];
  if (cellAt(current)) cellAt(current).tabIndex = -1;
  if (cellAt(first)) { current = first; cellAt(first).tabIndex = 0; }
};
if (!programs.length) byId('cell').replaceChildren(make('p', 'No programs.'));
const positionOf = cell => [rows.indexOf(cell.parentNode), [...cell.parentNode.children].indexOf(cell) - 1];
byId('matrix').addEventListener('click', event => {
  const cell = event.target.closest('td');
  if (!cell) return;
  enter(positionOf(cell));
  show(...current);
});
byId('matrix').addEventListener('keydown', event => {
  if (event.altKey || event.ctrlKey || event.metaKey || !cellAt(current)) return;
  const [kernel, program] = current, [height, width] = [rows.length, programs.length];
  const to = {
    ArrowUp: () => [step(kernel, -1, height, isRow), program],
    ArrowDown: () => [step(kernel, 1, height, isRow), program],
    ArrowLeft: () => [kernel, step(program, -1, width, isColumn)],
    ArrowRight: () => [kernel, step(program, 1, width, isColumn)],
    PageUp: () => [step(kernel, -1, height, isRow, PAGE), program],
    PageDown: () => [step(kernel, 1, height, isRow, PAGE), program],
    Home: () => [step(-1, 1, height, isRow), program],
    End: () => [step(height, -1, height, isRow), program],
  }[event.key];
  if (to) enter(to());
  else if (event.key === 'Enter' || event.key === ' ') show(kernel, program);
  else return;
  event.preventDefault();
});
byId('filters').addEventListener('input', filter);
byId('filters').addEventListener('submit', event => event.preventDefault());
filter();
";
