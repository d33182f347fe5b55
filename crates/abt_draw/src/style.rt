//! How the things of a picture look. Nothing is told by colour alone: kinds of arrows have dashes and words, connections have patterns.

// How the shapes of a picture look: on white, and on a screen that is dark, on black. Renderers that know no such rules draw on white.
const SHAPES: &str = "
svg { background: #fff }
text { font: 8px sans-serif; fill: #111; paint-order: stroke; stroke: #fff; stroke-width: 2px; stroke-linejoin: round }
text.name { font: bold 9px sans-serif; text-anchor: middle }
text.told { font: 8px monospace }
text.answer { font-size: 7px; fill: #555 }
text.note { stroke-width: 3px; pointer-events: none }
text.key { font-size: 7.5px }
.bad text.answer { fill: #a00; font-weight: bold }
.off text.answer, .off text.told { fill: #666; font-style: italic }
.else text.answer, .else text.told { fill: #666; font-size: 6px }
text.end { text-anchor: end }
text.middle, text.tick { text-anchor: middle }
text.scale { text-anchor: end }
text.band { font: bold 9px sans-serif }
line { stroke: #111; stroke-width: 1px }
line.life { stroke: #767676; stroke-dasharray: 1 3 }
line.up { stroke: #333; stroke-width: 2.5px }
line.grid { stroke: #ddd; stroke-width: 0.5px }
line.ground { stroke: #111; stroke-width: 0.7px }
line.arrow { marker-end: url(#head) }
line.request { stroke: #124a8c }
line.yes { stroke: #14632a; stroke-width: 2px }
line.no { stroke: #a00; stroke-dasharray: 6 3 }
line.old { stroke-width: 0.8px; stroke-dasharray: 2 2 }
line.lost { stroke: #a00; stroke-width: 1.6px }
line.crash { stroke: #a00; stroke-width: 2.2px }
line.cell { stroke: #111; stroke-width: 2px }
line.way { marker-end: url(#head) }
line.bad { stroke: #a00; stroke-dasharray: 3 2 }
circle { stroke: #111; fill: #fff }
circle.ask { fill: #124a8c; stroke: none }
circle.idle { stroke: #666; stroke-dasharray: 2 1.5 }
rect.refused { fill: #fff; stroke: #a00; stroke-width: 2px }
rect.set { fill: #111 }
rect.row { fill-opacity: 0 }
rect.paper { fill: #fff; pointer-events: none }
.event:hover rect.row, .event.now rect.row { fill: #fd6; fill-opacity: 0.4 }
.event:focus rect.row { stroke: #955800 }
.event:focus, .stuck:focus { outline: none }
.stuck text { fill: #a00; font-weight: bold }
.stuck:hover rect.row { fill: #fd6; fill-opacity: 0.4 }
.stuck:focus rect.row { stroke: #955800 }
circle.stuck { stroke: #a00; stroke-width: 1.6px }
line.stuck { stroke: #a00; stroke-width: 1.6px }
rect.hold { stroke: #333; stroke-width: 0.6px }
rect.h0 { fill: url(#p0) }
rect.h1 { fill: url(#p1) }
rect.h2 { fill: url(#p2) }
rect.h3 { fill: url(#p3) }
rect.h4 { fill: url(#p4) }
rect.h5 { fill: url(#p5) }
#p2 circle { fill: #14632a; stroke: none }
line.capacity { stroke: #a00; stroke-width: 2px }
line.least { stroke: #a00; stroke-width: 1.4px; stroke-dasharray: 5 3 }
line.rate { stroke: #124a8c; stroke-width: 2px }
line.cursor { stroke: #955800; stroke-width: 1.5px; visibility: hidden }
@media screen and (prefers-color-scheme: dark) {
svg { background: #15181d }
text { fill: #e8e8e8; stroke: #15181d }
text.answer { fill: #b8b8b8 }
.bad text.answer, .stuck text { fill: #ff9d94 }
.off text.answer, .off text.told, .else text.answer, .else text.told { fill: #a6a6a6 }
line, line.ground, line.cell { stroke: #e8e8e8 }
line.life { stroke: #8f8f8f }
line.up { stroke: #d0d0d0 }
line.grid { stroke: #333941 }
line.request, line.rate { stroke: #7fb4ff }
line.yes { stroke: #7fd18c }
line.no, line.lost, line.crash, line.stuck, line.capacity, line.least, line.bad { stroke: #ff8a80 }
circle { stroke: #e8e8e8; fill: #15181d }
circle.ask { fill: #7fb4ff; stroke: none }
circle.idle { stroke: #a6a6a6 }
circle.stuck { stroke: #ff8a80 }
rect.refused { fill: #15181d; stroke: #ff8a80 }
rect.set { fill: #e8e8e8 }
rect.paper { fill: #15181d }
.event:hover rect.row, .event.now rect.row, .stuck:hover rect.row { fill: #6b5200; fill-opacity: 0.5 }
.event:focus rect.row, .stuck:focus rect.row, line.cursor { stroke: #ffb84d }
rect.hold { stroke: #c8c8c8 }
#p0 rect { fill: #24476e }
#p1 rect { fill: #4a3b0e } #p1 path { stroke: #e0bd5a }
#p2 rect { fill: #1d4426 } #p2 circle { fill: #7fd18c }
#p3 rect { fill: #4d2140 } #p3 path { stroke: #e39acb }
#p4 rect { fill: #3a3d42 } #p4 path { stroke: #c8c8c8 }
#p5 rect { fill: #332c5c } #p5 path { stroke: #b3a8f0 }
}
";

// The heads of arrows, and the patterns of what connections hold.
const DEFINITIONS: &str = "<defs>
<marker id='head' viewBox='0 0 8 8' refX='8' refY='4' markerWidth='7' markerHeight='7' markerUnits='userSpaceOnUse' orient='auto'>
<path d='M0 0.5 L8 4 L0 7.5 z' fill='context-stroke'/></marker>
<pattern id='p0' width='4' height='4' patternUnits='userSpaceOnUse'><rect width='4' height='4' fill='#bcd4ee'/></pattern>
<pattern id='p1' width='6' height='6' patternUnits='userSpaceOnUse'><rect width='6' height='6' fill='#f7e2b0'/>
<path d='M0 6 L6 0' stroke='#8a6d1a' stroke-width='1'/></pattern>
<pattern id='p2' width='5' height='5' patternUnits='userSpaceOnUse'><rect width='5' height='5' fill='#cfe8cf'/>
<circle cx='2.5' cy='2.5' r='1'/></pattern>
<pattern id='p3' width='6' height='6' patternUnits='userSpaceOnUse'><rect width='6' height='6' fill='#efd0e4'/>
<path d='M0 0 L6 6' stroke='#7c2a63' stroke-width='1'/></pattern>
<pattern id='p4' width='5' height='5' patternUnits='userSpaceOnUse'><rect width='5' height='5' fill='#e4e4e4'/>
<path d='M0 2.5 H5' stroke='#444' stroke-width='1'/></pattern>
<pattern id='p5' width='5' height='5' patternUnits='userSpaceOnUse'><rect width='5' height='5' fill='#d8d2f0'/>
<path d='M2.5 0 V5' stroke='#3b2f7a' stroke-width='1'/></pattern>
</defs>
";

/// How the shapes of a picture look.
pub(crate) fn shapes() -> &'static str {
    SHAPES
}

/// The heads of arrows, and the patterns of what connections hold.
pub(crate) fn definitions() -> &'static str {
    DEFINITIONS
}
