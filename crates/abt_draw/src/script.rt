//! What a page has round its picture: how it looks, how it is gone through, and its script.

/// How the page of a picture looks.
pub(crate) const PAGE: &str = "
body { margin: 1em; font: 15px sans-serif; color: #111; background: #fff }
h1 { font-size: 1.2em } h2 { font-size: 1em }
.steps { position: sticky; top: 0; background: #fff; padding: 0.4em 0; border-bottom: 1px solid #767676; z-index: 2 }
.steps input { width: 40%; vertical-align: middle }
output { display: block; font: 13px monospace; min-height: 1.4em; overflow-x: auto; white-space: nowrap }
.both { display: flex; align-items: flex-start; gap: 1em }
.picture { flex: 1 1 auto; min-width: 0 }
svg { display: block; max-width: 100%; height: auto }
#names { position: sticky; border-bottom: 1px solid #767676; z-index: 1 }
#held { flex: 0 0 17em; position: sticky; max-height: 80vh; overflow-y: auto; font-size: 13px }
#held h2 { margin: 0.5em 0 }
#held th { text-align: left; vertical-align: top; padding-right: 0.8em; white-space: nowrap }
#held td { padding-bottom: 0.4em }
pre { overflow-x: auto; font-size: 12px }
@media (max-width: 60em) { .both { display: block } #held { position: static; max-height: none } }
@media screen and (prefers-color-scheme: dark) {
:root { color-scheme: dark }
body, .steps { color: #e8e8e8; background: #15181d }
}
@media print { .steps, #names, #held { display: none } .both { display: block } svg { width: 100% } pre { white-space: pre-wrap } }
";

/// How one goes through the picture of a page, which stands above it.
pub(crate) const KEYS: &str =
    "<p>Time goes down, event by event. Step through the events by the slider, by the keys Left, Right, Home and End, by
mouse or by Tab. What is held behind the event that is shown stands beside the picture, and the legend below it. A circle with a cross,
below all events, is an entry at which a journal is stuck: no event fits there.</p>
";

// The script of the page of a picture: keys, mouse and slider, the names that stay in sight, and what is held.
const SCRIPT: &str = "
(function () {
  function all(what) { return Array.prototype.slice.call(document.querySelectorAll(what)); }
  var events = all('g.event');
  var stuck = all('g.stuck');
  var slider = document.getElementById('slider');
  var told = document.getElementById('now');
  var held = document.getElementById('held');
  var cursor = document.querySelector('line.cursor');
  var svg = document.querySelector('svg');
  var width = svg.viewBox.baseVal.width;
  var at = -1;
  function textOf(group) { return group.querySelector('title').textContent; }
  function number(one, name) { return Number(one.getAttribute(name)); }
  var before = Number(slider.dataset.before);
  var shown = Number(slider.dataset.shown);
  function edge(frame) { return 100 + (width - 120) * frame / (shown + 1); }
  function frameOf(group) { return Number(group.id.slice(1)) - before; }

  // The bands by their names, each with the parts that are told in it.
  var parts = all('rect.hold, line.capacity, line.rate, line.least').filter(function (one) { return one.querySelector('title'); });
  parts = parts.map(function (one) {
    var block = one.tagName === 'rect';
    var from = number(one, block ? 'x' : 'x1');
    return { y: number(one, block ? 'y' : 'y1'), from: from, to: block ? from + number(one, 'width') : number(one, 'x2'), told: textOf(one) };
  });
  var bands = all('text.band').map(function (name) {
    var base = number(name, 'y') + 30;
    return { name: name.textContent, parts: parts.filter(function (one) { return base - 60.05 < one.y && one.y < base + 0.05; }) };
  });
  function tell(frame) {
    var x = (edge(frame) + edge(frame + 1)) / 2;
    var table = document.createElement('table');
    bands.forEach(function (band) {
      var row = table.insertRow();
      var name = row.appendChild(document.createElement('th'));
      name.scope = 'row';
      name.textContent = band.name;
      var cell = row.insertCell();
      band.parts.filter(function (one) { return one.from < x && x < one.to; }).forEach(function (one) {
        cell.appendChild(document.createElement('div')).textContent = one.told;
      });
    });
    var title = document.createElement('h2');
    title.textContent = frame === 0 ? 'Held before the first event' : 'Held after event ' + (before + frame);
    held.replaceChildren(title, table);
  }

  // The names of the lifelines, which stay above the picture while it is scrolled.
  var names = document.createElementNS(svg.namespaceURI, 'svg');
  names.id = 'names';
  names.setAttribute('viewBox', '0 0 ' + width + ' 32');
  names.setAttribute('width', width);
  names.setAttribute('aria-hidden', 'true');
  all('text.name').forEach(function (name) { names.appendChild(name.cloneNode(true)); });
  svg.parentNode.insertBefore(names, svg);
  function arrange() {
    var above = document.querySelector('.steps').offsetHeight;
    var height = names.getBoundingClientRect().height;
    names.style.top = held.style.top = above + 'px';
    names.style.marginBottom = -height + 'px';
    document.documentElement.style.scrollPaddingTop = above + height + 8 + 'px';
  }
  window.addEventListener('resize', arrange);

  function show(place, moves) {
    if (events.length === 0) { return; }
    place = Math.max(0, Math.min(events.length - 1, place));
    if (at !== -1) { events[at].classList.remove('now'); }
    at = place;
    events[at].classList.add('now');
    slider.value = at + 1;
    slider.setAttribute('aria-valuetext', textOf(events[at]));
    told.textContent = textOf(events[at]);
    cursor.setAttribute('x1', edge(frameOf(events[at])));
    cursor.setAttribute('x2', edge(frameOf(events[at])));
    cursor.style.visibility = 'visible';
    tell(frameOf(events[at]));
    if (moves) { events[at].scrollIntoView({ block: 'nearest' }); }
  }
  slider.addEventListener('input', function () { show(slider.value - 1, true); });
  document.getElementById('back').addEventListener('click', function () { show(at - 1, true); });
  document.getElementById('on').addEventListener('click', function () { show(at + 1, true); });
  document.addEventListener('keydown', function (key) {
    if (key.target === slider || key.ctrlKey || key.altKey || key.metaKey) { return; }
    var steps = { ArrowRight: at + 1, ArrowLeft: at - 1, Home: 0, End: events.length - 1 };
    if (key.key in steps) { show(steps[key.key], true); key.preventDefault(); }
  });
  events.concat(stuck).forEach(function (group) {
    group.addEventListener('mouseenter', function () { told.textContent = textOf(group); });
    group.addEventListener('mouseleave', function () { if (at !== -1) { told.textContent = textOf(events[at]); } });
  });
  stuck.forEach(function (group) {
    group.addEventListener('focus', function () { told.textContent = textOf(group); });
  });
  events.forEach(function (group, place) {
    group.addEventListener('focus', function () { show(place, false); });
    group.addEventListener('click', function () { show(place, false); });
  });
  arrange();
  tell(0);
})();
";

/// The script of the page of a picture: keys, mouse and slider, the names that stay in sight, and what is held.
pub(crate) fn script() -> &'static str {
    SCRIPT
}
