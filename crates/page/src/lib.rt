// The page around the systems: its head, how it is read, its end, and the page of a refused file.
#![tactic(auto)]

ghost use Rattle.std.specs.Prelude.{◌≤◌, length};
ghost use Rattle.forms.specs.Within.{Within};

// Everything up to the title. Black on white alone; three systems side by side on paper, as many as fit on a screen.
fn put_start(out: &mut [u8]) -> usize
    ensures { Within result out.new }
{
    let html = text::put(
        out,
        0,
        b"<!DOCTYPE html>\n<html lang='en'>\n<head>\n<meta charset='utf-8'/>\n<meta name='viewport' content='width=device-width, initial-scale=1'/>\n<style>\n",
    );
    let plain = text::put(
        out,
        html,
        b"body{margin:0 auto;padding:10px;max-width:1180px;font:15px/1.35 sans-serif;color:#000;background:#fff}\nh1{margin:0;font-size:1.4em}h2{margin:0;font-size:1em}p,ol{margin:.2em 0}ol{padding-left:1.6em;font-size:.85em}span{white-space:nowrap}\nmain{display:grid;grid-template-columns:repeat(auto-fill,minmax(min(330px,100%),1fr));gap:10px;margin-top:.5em;align-items:start}\nsection{border:1px solid #000;padding:8px;min-width:0;overflow-wrap:anywhere}\n",
    );
    let drawn = text::put(
        out,
        plain,
        b"svg{display:block;width:100%;height:auto}\n.chance,.gap{border:1px solid #000;box-sizing:border-box;height:9px}.gap{display:inline-block;width:80px;margin-left:.4em}\n.lower{fill:#000}.upper{fill:#fff;stroke:#000;stroke-width:.6}.axis{stroke:#000}.fans,.all{fill:none;stroke:#000;stroke-linecap:round;stroke-width:5}.all{stroke-width:2}\n.window{fill:none;stroke:#000;stroke-width:2}.last{stroke-dasharray:3 2}.ring{float:right;width:70px}.bad{border-width:3px}\n",
    );
    text::put(
        out,
        drawn,
        b"@page{size:A4;margin:9mm}\n@media print{body{padding:0;max-width:none;font-size:6pt;line-height:1.15}ol{font-size:1em}main{display:block;columns:3;column-gap:2mm}section{break-inside:avoid;padding:.8mm;margin:0 0 1.5mm}.ring{width:12mm}.chance,.gap{height:1.6mm}.gap{width:16mm}}\n</style>\n",
    )
}

// What one number counts: ` fans`, or ` fan` where it is one.
fn put_count(name: &[u8], n: u64, out: &mut [u8], at: usize) -> usize
    requires { at ≤ length out.old }
    ensures { Within result out.new }
{
    let number = text::put_number(out, at, n);
    let end = text::put(out, number, name);
    if n == 1 {
        return end;
    }
    text::put(out, end, b"s")
}

// The deck in a line: `Deck of 12 fans, 2 boards, 3 systems`.
fn put_deck(n: u64, g: u64, m: u64, out: &mut [u8], at: usize) -> usize
    requires { at ≤ length out.old }
    ensures { Within result out.new }
{
    let deck = text::put(out, at, b"Deck of ");
    let fans = put_count(b" fan", n, out, deck);
    let boards = put_boards(g, out, fans);
    let comma = text::put(out, boards, b", ");
    put_count(b" system", m, out, comma)
}

// The boards of a deck that has any.
fn put_boards(g: u64, out: &mut [u8], at: usize) -> usize
    requires { at ≤ length out.old }
    ensures { Within result out.new }
{
    if g == 0 {
        return at;
    }
    let comma = text::put(out, at, b", ");
    put_count(b" board", g, out, comma)
}

// How the page is read.
fn put_legend(unit: u64, out: &mut [u8], at: usize) -> usize
    requires { at ≤ length out.old }
    ensures { Within result out.new }
{
    let parts = text::put_named(
        b"<p>Each box is a system of the deck. The exact chance that it lasts lies between its two percents; the long bar shows it. Low, high, the gap between them and what fans are worth are counted in parts, of which the whole has ",
        unit,
        out,
        at,
    );
    text::put(
        out,
        parts,
        b"; the short bar shows the gap beside the most that it can be.</p>\n<p>The upright bars show what each fan is worth, in deck order: how much likelier the system is to last with that fan sure to work than with it sure to fail. The exact worth lies between the black bar and the white one; the tallest bar is the largest worth in its box. A bar below the line: the system is likelier to last without that fan. The dots are the deck's fans, the large ones those of the system. A bracket marks the first window of the rule, a dashed one the last. The five fans that are worth most are listed.</p>\n<main>\n",
    )
}

// The page up to its first system.
pub fn put_head(version: u64, n: u64, g: u64, m: u64, out: &mut [u8]) -> usize
    ensures { Within result out.new }
{
    let start = put_start(out);
    let title = text::put(out, start, b"<title>");
    let named = put_deck(n, g, m, out, title);
    let body = text::put(out, named, b"</title>\n</head>\n<body>\n<h1>");
    let head = put_deck(n, g, m, out, body);
    let end = text::put(out, head, b"</h1>\n");
    put_legend(units::whole(units::is_decimal(version)), out, end)
}

// The page's end.
pub fn put_end(out: &mut [u8], at: usize) -> usize
    requires { at ≤ length out.old }
    ensures { Within result out.new }
{
    text::put(out, at, b"</main>\n</body>\n</html>\n")
}

// The page of a refused file.
pub fn put_refused(number: u64, file: &[u8], out: &mut [u8]) -> usize
    ensures { Within result out.new }
{
    let start = put_start(out);
    let body = text::put(
        out,
        start,
        b"<title>Deck file refused</title>\n</head>\n<body>\n<main>\n<section class='bad'>\n<h1>The deck file is refused</h1>\n",
    );
    let why = advice::file::file_why(file);
    let told = advice::put_paragraph(number, why, out, body);
    let section = text::put(out, told, b"</section>\n");
    put_end(out, section)
}
