//! The fixed texts of the page. A `~` stands for a value; the definitions of the page say which.

/// The head of the page, from the first line to the heading. Its values: the title of the document, and the heading.
pub(crate) const HEAD: &[u8] = b"<!DOCTYPE html>
<html lang=\"en\">
<head>
<meta charset=\"utf-8\">
<meta name=\"viewport\" content=\"width=device-width, initial-scale=1\">
<meta name=\"color-scheme\" content=\"light dark\">
<title>~</title>
<style>
:root{--paper:#fdfcf9;--ink:#1d2329;--soft:#59636e;--line:#d5d9dd;--pool:#8b96a1;--seats:#7fb2e5;--mean:#0b4a8f;--equal:#b3541e}
@media(prefers-color-scheme:dark){:root{--paper:#14181c;--ink:#e8eaed;--soft:#a5afb9;--line:#39424b;--pool:#76828e;--seats:#2f6aa8;--mean:#a9d3ff;--equal:#f0a06a}}
@media print{:root{--paper:#fff;--ink:#000;--soft:#444;--line:#bbb;--pool:#888;--seats:#8bbbe8;--mean:#003a7a;--equal:#a04000}h2,h3{break-after:avoid}tr,tbody.value,figure{break-inside:avoid}.key li::before,svg{print-color-adjust:exact}}
body{margin:0;background:var(--paper);color:var(--ink);font:1rem/1.5 system-ui,sans-serif}
main{max-width:46rem;margin:0 auto;padding:1.5rem 1rem 3rem}
h1{font-size:1.9rem;line-height:1.2}
h2{margin-top:2.6rem;border-top:2px solid var(--ink);padding-top:.7rem}
h3{margin:1.8rem 0 .3rem}
h3,th,code{overflow-wrap:anywhere}
.lead{font-size:1.15rem}
.members{columns:6rem;list-style:none;padding:0;font-weight:600}
table{width:100%;table-layout:fixed;border-collapse:collapse;font-variant-numeric:tabular-nums}
th,td{padding:.3rem 0;text-align:right}
th:first-child{text-align:left}
thead th:first-child{width:31%}
thead th{color:var(--soft);font-size:.85rem;border-bottom:1px solid var(--line);overflow-wrap:normal}
.chances td{border-bottom:1px solid var(--line);overflow-wrap:anywhere}
.chances tbody th{border-bottom:1px solid var(--line)}
td[colspan]{padding:0 0 .6rem}
svg{display:block;width:100%;height:1.5rem;border-left:1px solid var(--line)}
path,polyline{fill:none;vector-effect:non-scaling-stroke;stroke-width:3px}
.pool{fill:var(--pool)}
.seats{fill:var(--seats);stroke:var(--seats);vector-effect:non-scaling-stroke}
.mean{stroke:var(--mean)}
.equal{stroke:var(--equal);stroke-width:2px;stroke-dasharray:7 5}
.grid{stroke:var(--line);stroke-width:1px}
.curve{height:18rem;border:0}
figure{margin:1rem 0}
.axis{display:flex;justify-content:space-between;margin:.2rem 0;color:var(--soft);font-size:.85rem}
.key{list-style:none;padding:0}
.key li{padding-left:2.1em}
.key li::before{content:\"\";display:inline-block;width:1.5em;height:.7em;margin:0 .6em 0 -2.1em;background:var(--pool)}
.key .s::before{background:var(--seats)}
.key .m::before{background:var(--mean);height:3px;vertical-align:.25em}
.key .e::before{background:none;border-top:2px dashed var(--equal);height:0;vertical-align:.25em}
</style>
</head>
<body>
<main>
<h1>~</h1>";

/// The title of the document, for a page that names no round. Its values: seats, volunteers.
pub(crate) const PLAIN_TITLE: &[u8] = b"The lottery for a panel of ~ from ~ volunteers";

/// The heading of a page that names no round.
pub(crate) const PLAIN_HEADING: &[u8] = b"The lottery for the panel";

/// The title and the heading of the page of a round: the assembly's title, and the round's number.
pub(crate) const ROUND_HEADING: &[u8] = b"~: the lottery of round ~";

/// The words below the heading. Their values: volunteers, seats, panels, tickets.
pub(crate) const LEAD: &[u8] =
    b"<p class=\"lead\"><strong>~</strong> people volunteered for the <strong>~</strong> seats of the panel. The lottery has <strong>~</strong> possible panels, with <strong>~</strong> tickets among them. Dice that are thrown in public draw one ticket, and with it the panel.</p>";

/// The draw in words. Its values: the digits, the tickets in all, how many digits were read, the ticket, and the seal.
pub(crate) const DRAWN: &[u8] = b"<h2>The panel that the digits draw</h2>
<p>The digits of the dice are <code>~</code>. There are <strong>~</strong> tickets in all, which are numbered from 0. Digits that were read: <strong>~</strong>. They name the ticket <strong>~</strong>. The seal of the lottery is <code>~</code>.</p>";

/// How to check a draw in the lottery's own tickets.
pub(crate) const CHECK: &[u8] =
    b"<p>To check it, give this seal and these digits to <code>sortition draw</code>. It reads the bundle, and prints the same ticket and the same members.</p>";

/// How to check a draw in another number of tickets. Its value: how many tickets the lottery has.
pub(crate) const CHECK_SHORT: &[u8] =
    b"<p>The lottery itself has ~ tickets. This draw is in another number of them. Each panel has its share of these, rounded up or down to whole tickets. So the chances differ from those below, and may differ much if the tickets are few. To check it, give this number, this seal and these digits to <code>sortition short-draw</code>. It reads the bundle, and prints the same ticket and the same members.</p>";

/// The words above the members, and the start of their list.
pub(crate) const MEMBERS: &[u8] = b"<p>It is a ticket of the panel of these members:</p>
<ul class=\"members\">";

/// The line of a member of the drawn panel. Its value: the id.
pub(crate) const MEMBER: &[u8] = b"<li>~</li>";

/// The end of the list of members, and the head of the table of values.
pub(crate) const DRAWN_TABLE: &[u8] = b"</ul>
<table>
<thead><tr><th scope=\"col\">value</th><th scope=\"col\">members</th><th scope=\"col\">seats</th></tr></thead>
<tbody>";

/// The row of a value: its category, its name, the members who have it, and its bounds.
pub(crate) const DRAWN_VALUE: &[u8] =
    b"<tr><th scope=\"row\">~: ~</th><td>~</td><td>~ to ~</td></tr>";

/// The end of the table of values.
pub(crate) const END_OF_DRAWN: &[u8] = b"</tbody>
</table>";

/// The words above the bars.
pub(crate) const QUOTAS: &[u8] = b"<h2>Volunteers and seats</h2>
<p>For each value of a category there is a least and a greatest number of seats. Volunteers who are gone aren't counted here. The seats expected are those that a panel has on average over all tickets.</p>
<ul class=\"key\">
<li>the part of the volunteers who have the value</li>
<li class=\"s\">the part of the seats that may be theirs, from the least to the greatest number</li>
<li class=\"m\">the part of the seats that is expected</li>
</ul>
<p>The width of a picture stands for all of these volunteers, and for all seats.</p>";

/// The heading of a category, and the head of its table. Its value: the category's name.
pub(crate) const CATEGORY: &[u8] = b"<h3>~</h3>
<table>
<thead><tr><th scope=\"col\">value</th><th scope=\"col\">volunteers</th><th scope=\"col\">seats</th><th scope=\"col\">expected</th></tr></thead>";

/// The numbers of a value: its name, the volunteers who have it and aren't gone, its bounds, and the seats expected.
pub(crate) const NUMBERS: &[u8] =
    b"<tbody class=\"value\"><tr><th scope=\"row\">~</th><td>~</td><td>~ to ~</td><td>~</td></tr>";

/// The start of a value's picture, and its title. Its values: the picture's width; the value's name; the volunteers who have it and aren't
/// gone, all who aren't gone, its bounds, all seats, and the seats expected.
pub(crate) const WORDS: &[u8] =
    b"<tr><td colspan=\"4\"><svg role=\"img\" viewBox=\"0 0 ~ 30\" preserveAspectRatio=\"none\"><title>~: ~ of ~ volunteers, ~ to ~ of ~ seats, ~ seats expected</title>";

/// The bars of a value's picture: the width of the volunteers, the place and the width of the bounds, and the place of the seats expected.
pub(crate) const SHAPES: &[u8] =
    b"<rect class=\"pool\" width=\"~\" height=\"13\"/><rect class=\"seats\" x=\"~\" y=\"17\" width=\"~\" height=\"13\"/><path class=\"mean\" d=\"M~ 13v17\"/></svg></td></tr></tbody>";

/// The end of the table of a category.
pub(crate) const END_OF_CATEGORY: &[u8] = b"</table>";

/// The words above the curve. Their values: the least and the greatest chance; the equal chance, how many have it, and for how many seats;
/// how many are seated, and how many are gone.
pub(crate) const CURVE_WORDS: &[u8] = b"<h2>The chances</h2>
<p>The chances go from ~ to ~. A plain equal lottery, which looks at no category and at no household, would give ~ to each volunteer who is neither seated nor gone (volunteers: ~, seats for them: ~). Seated, with a seat for sure: ~. Gone, with none: ~.</p>";

/// The start of the curve's picture, with the level lines of the equal lottery. Its values: the width of the picture; the end of the first
/// line; the start, height and end of the second; and the start and end of the third.
pub(crate) const CURVE: &[u8] = b"<figure>
<p class=\"axis\" aria-hidden=\"true\">100 %</p>
<svg class=\"curve\" role=\"img\" viewBox=\"0 -100 ~ 10200\" preserveAspectRatio=\"none\"><title>The chances of all volunteers in rising order as a curve, and those in a plain equal lottery as level lines</title>
<path class=\"grid\" d=\"M0 0H400M0 2500H400M0 5000H400M0 7500H400M0 10000H400\"/>
<path class=\"equal\" d=\"M0 10000H~M~ ~H~M~ 0H~\"/>
<polyline class=\"mean\" points=\"";

/// Two points of the curve: place and height, the next place and the height.
pub(crate) const POINT: &[u8] = b"~,~ ~,~";

/// The end of the curve's picture, and the head of the table of chances.
pub(crate) const TABLE: &[u8] = b"\"/></svg>
<p class=\"axis\" aria-hidden=\"true\"><span>the least chance</span><span>the greatest</span></p>
<figcaption>
<ul class=\"key\">
<li class=\"m\">the chances in this lottery, in rising order. The lines behind them are at 0, 25, 50, 75 and 100 %</li>
<li class=\"e\">the chances in a plain equal lottery, in rising order</li>
</ul>
</figcaption>
</figure>
<h2>The chance of each volunteer</h2>
<table class=\"chances\">
<thead><tr><th scope=\"col\">volunteer</th><th scope=\"col\">chance</th><th scope=\"col\">exactly</th></tr></thead>
<tbody>";

/// The row of a volunteer: id, chance, and the chance in lowest terms.
pub(crate) const CHANCE: &[u8] = b"<tr><th scope=\"row\">~</th><td>~</td><td>~</td></tr>";

/// The end of the page, from the end of the table of chances to the last line. Its value: the seal.
pub(crate) const CLOSING: &[u8] = b"</tbody>
</table>
<h2>The seal</h2>
<p><code>~</code></p>
<p>It is the SHA-256 digest of the file that holds the volunteers, the quotas and the lottery, which is called the bundle. If one byte of the bundle is changed, its seal is another.</p>
<h2>How to check this page</h2>
<ol>
<li><code>sortition seal</code> reads the bundle and prints its seal. So does <code>sha256sum</code>. Both print the one above.</li>
<li><code>sortition page</code> reads the bundle and prints this page again, but for the title and the heading if this one names a round. If the page shows a draw, give it <code>--drawn</code> and the digits, and <code>--tickets</code> and the number of tickets if this isn't the lottery's own. <code>sortition chances</code> prints the same chances.</li>
<li>If a proof was published with the bundle, <code>sortition bundle</code> reads it and prints this bundle: its seal is the one above. <code>sortition verify</code> reads the same proof. If it prints <code>valid</code>, every panel meets the quotas, and no other lottery over such panels gives a greater least chance, or the same least chance and a greater second one, and so on.</li>
<li>When the dice are thrown, anybody can read their digits. <code>sortition draw</code> reads the bundle, is given the seal and the digits, and prints the panel; <code>sortition short-draw</code> does so in a round number of tickets.</li>
</ol>
</main>
</body>
</html>";
