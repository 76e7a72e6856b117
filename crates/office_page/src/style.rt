//! How a page looks.

/// The page: colours, light and dark, texts, links.
const PAGE: &[u8] = b"\
    :root{--g:#fff;--i:#1b1f24;--q:#59616a;--n:#dfe3e8;--p:#f1f3f6;--a:#0b57a4;--r:#b3261e;\
    --y:#176b37;--m:100%}\n\
    @media(prefers-color-scheme:dark){:root{--g:#15181b;--i:#e3e6ea;--q:#a2abb5;\
    --n:#343b43;--p:#22272c;--a:#8ab8ff;--r:#ff8a80;--y:#7bd88f;--m:40%}}\n\
    :root,.tx{--c:#bbb}\n\
    .t0{--c:#77aadd}.t1{--c:#ee8866}.t2{--c:#44bb99}.t3{--c:#eedd88}.t4{--c:#ffaabb}\
    .t5{--c:#bbcc33}.t6{--c:#99ddff}.t7{--c:#aaaa00}\n\
    *{box-sizing:border-box}\n\
    html{scroll-padding-top:2.5rem}\n\
    body{margin:0 auto;padding:1.5rem;max-width:80rem;background:var(--g);color:var(--i);\
    font:15px/1.45 system-ui,sans-serif;font-variant-numeric:tabular-nums;\
    overflow-wrap:anywhere;-webkit-print-color-adjust:exact;print-color-adjust:exact}\n\
    h1{font-size:1.9rem;line-height:1.2;margin:0}\n\
    h2{font-size:1.3rem;margin:2.5rem 0 .6rem}\n\
    h3{font-size:1rem;margin:0;display:inline}\n\
    small,.q,caption,h3,summary{color:var(--q);font-weight:400}\n\
    h3 b{color:var(--i);font-size:1.06rem}\n\
    small{font-size:1rem}\n\
    p,ul{margin:.35rem 0}\n\
    ul{padding:0;list-style:none}\n\
    li{break-inside:avoid}\n\
    a{color:var(--a);text-decoration:none}\n\
    a:hover{text-decoration:underline}\n\
    a:has(>b.l){white-space:nowrap}\n\
    em{color:var(--r);font-style:normal;font-weight:600}\n\
    code{font:.93em ui-monospace,monospace}\n\
    summary{cursor:pointer;overflow-wrap:anywhere}\n";

/// Letters of teams, and marks.
const LETTERS: &[u8] = b"\
    /* letters of teams, marks */\n\
    b.l,b.h,b.f,.cell{display:inline-block;min-width:1.4em;height:1.45em;padding:0 .3em;\
    border-radius:2px;text-align:center;font-size:.85em;line-height:1.45;text-indent:0}\n\
    .l{background:var(--c);color:#000;forced-color-adjust:none}\n\
    .h{background:repeating-linear-gradient(135deg,color-mix(in srgb,var(--c) var(--m),\
    var(--g)) 0 2px,var(--g) 2px 6px);color:var(--i);font-weight:700;\
    forced-color-adjust:none}\n\
    .f{background:color-mix(in srgb,var(--c) 25%,var(--g));color:var(--i);\
    forced-color-adjust:none}\n\
    b.f,.cell{font-weight:400}\n\
    .cell{vertical-align:middle;height:1.2em;border:1px solid var(--n);line-height:1.1}\n\
    .kind{border:1px solid;border-radius:3px;padding:.05em .5em;margin-right:.3em}\n\
    b.bad,span.good{border:1px solid;border-radius:3px;padding:0 .35em;font-size:.85em;\
    font-weight:700;white-space:nowrap;color:var(--r)}\n\
    span.good{color:var(--y);font-weight:400}\n\
    .old{color:var(--r)}.sel{color:var(--y);font-weight:600}\n";

/// The head of a page, and lists of large figures.
const HEAD: &[u8] = b"\
    /* head */\n\
    .path{font-size:.9rem;margin:0 0 .5rem}\n\
    .n{margin-top:.9rem;padding:.45rem 0;border:solid var(--n);border-width:1px 0}\n\
    .n a{display:inline-block;margin-right:1.1rem}\n\
    .big li,.line li{display:inline-block;margin-right:1.4rem}\n\
    .big b{font-size:1.35rem}\n\
    .big .bad,.big .bad b{color:var(--r)}\n\
    form{margin:.8rem 0 0;display:flex;gap:.5rem;max-width:40rem}\n\
    input,button{font:inherit;padding:.35rem .7rem;border:1px solid var(--q);\
    border-radius:4px;background:var(--g);color:var(--i);min-width:0}\n\
    input{flex:1}\n\
    button{background:var(--p)}\n";

/// Tables, bars and lists.
const TABLES: &[u8] = b"\
    /* tables */\n\
    table{border-collapse:collapse;width:100%}\n\
    th,td{padding:.2rem .5rem;text-align:left;vertical-align:top;font-weight:400}\n\
    td{overflow-wrap:break-word}\n\
    .long td{overflow-wrap:anywhere}\n\
    .long .nums td:is(:nth-child(2),:nth-child(3)){white-space:nowrap}\n\
    .list th{min-width:6rem}\n\
    tbody th{font-weight:600}\n\
    thead th{position:sticky;top:0;background:var(--g);color:var(--q);\
    vertical-align:bottom;border-bottom:1px solid var(--q);z-index:1;overflow-wrap:normal}\n\
    caption{text-align:left;padding:.2rem 0}\n\
    :is(.nums,.sig,.list,.chg) tbody tr{border-bottom:1px solid var(--n)}\n\
    .nums,.sig{font-size:.92rem}\n\
    .nums,.list{width:auto;min-width:50%}\n\
    .sig tr>:is(:first-child,:nth-child(4),:nth-child(5),:nth-child(8)){text-align:right}\n\
    :is(.nums,.sig,.chg) :is(td,th){min-width:2.4rem}\n\
    .lot tr>:is(:nth-child(3),:nth-child(5),:nth-child(6),:nth-child(7)){text-align:right}\n\
    .lot td:nth-child(4){min-width:9rem}\n\
    .list ul{margin:0}\n\
    .lot td:last-child{min-width:13rem}\n\
    .sig td:last-child{min-width:12rem}\n\
    .chg{table-layout:fixed;min-width:38rem}\n\
    .chg th:first-child{width:24%}.chg tr>:last-child{width:3rem;text-align:center}\
    .chg td:nth-child(2){width:16%}\n\
    tr:target,:target{background:var(--p)}\n\
    .bar{display:flex;height:.9em;min-width:8rem;margin:.25em 0;gap:0;\
    border:1px solid var(--n)}\n\
    .bar i{min-width:0}\n\
    .rows li{padding:.12rem 0}\n\
    .cols{columns:20rem;column-gap:2rem;font-size:.87rem}\n\
    .cols li{padding:.05rem 0}\n";

/// The map of the numbers.
const MAP: &[u8] = b"\
    /* the map */\n\
    .grid{display:grid;grid-template-columns:repeat(auto-fill,minmax(min(25rem,100%),1fr));\
    gap:.5rem 2rem;align-items:start}\n\
    .map{table-layout:fixed;border-spacing:1px;border-collapse:separate;break-inside:avoid}\n\
    .map :is(th,td){padding:0;height:1.45rem;text-align:center;vertical-align:middle;\
    font-size:.75rem;line-height:1;min-width:0;overflow:hidden;white-space:nowrap}\n\
    .map th{position:static;border:0;color:var(--q);font:.7rem ui-monospace,monospace}\n\
    .map tr>:first-child{width:4.2rem;box-shadow:none}\n\
    .map td{box-shadow:0 0 0 1px var(--n)}\n\
    .map a{display:block;line-height:1.45rem;color:inherit;font-weight:700}\n";

/// Bits of payloads, cards, and the matrix of nodes.
const BITS: &[u8] = b"\
    /* bits */\n\
    .bits,.strip{table-layout:fixed;margin:.5rem 0;font-size:.85rem}\n\
    :is(.bits,.strip) :is(th,td){border:1px solid var(--n);padding:.1rem .35rem;\
    height:1.55rem;overflow:hidden;white-space:nowrap;text-overflow:ellipsis}\n\
    :is(.bits,.strip) th{position:static;border:0;color:var(--q);font-weight:400}\n\
    .bits tr>:first-child{width:6.2rem}\n\
    .bits td.eq{border:0;color:var(--q)}\n\
    .u,td.v,td.was,td.moved,td.y,td.p{border-color:var(--q)}\n\
    .u{background:var(--p)}\n\
    td.v,.moved{background:color-mix(in srgb,var(--a) 18%,var(--g))}\n\
    .was{border-style:dashed!important;border-color:var(--a)!important}\n\
    .y{background:repeating-linear-gradient(135deg,color-mix(in srgb,var(--r) 22%,\
    var(--g)) 0 3px,var(--g) 3px 7px)}\n\
    .p{background:color-mix(in srgb,var(--y) 22%,var(--g))}\n\
    td.x{color:var(--r);outline:2px solid var(--r);outline-offset:-2px;font-weight:700}\n\
    :is(.u,.v)>b:first-child,.sig th>b{color:var(--r)}\n\
    .strip{min-width:34rem}\n\
    .strip tr>:first-child{width:10rem;white-space:nowrap}\n\
    .strip tbody th{color:var(--i)}\n\
    .strip thead th+th{border-left:1px solid var(--q);font:.75rem ui-monospace,monospace;\
    padding-left:.2em}\n\
    .strip .taken{background:var(--q)}\n\
    .strip .none{border:0}\n\
    .two{display:grid;grid-template-columns:repeat(auto-fit,minmax(min(20rem,100%),1fr));\
    gap:0 1.5rem}\n\
    .card{padding:.5rem 0;scroll-margin-top:1rem}\n\
    section.card,.home{border-top:1px solid var(--n);padding:.9rem 0}\n\
    .card p[id]{scroll-margin-top:4rem}\n\
    .home{display:grid;grid-template-columns:minmax(min(15rem,100%),26rem) 1fr;\
    gap:.2rem 2.5rem}\n\
    .home h3 a{font-size:1.25rem;font-weight:700}\n\
    .pair{display:flex;flex-wrap:wrap;gap:1rem 3rem;align-items:start}\n\
    .pair .nums{min-width:0}\n\
    .pair .wide{overflow:auto;max-height:92vh;max-width:100%}\n\
    .matrix{width:auto;font-size:.87rem}\n\
    .matrix td{min-width:2.2rem;text-align:center;border-left:1px solid var(--n)}\n\
    .matrix tr{border-bottom:1px solid var(--n)}\n\
    .matrix td b{color:inherit!important}\n\
    .matrix thead span{writing-mode:vertical-rl;transform:rotate(180deg);max-height:14rem}\n\
    .matrix tbody th{position:sticky;left:0;background:var(--g);font-weight:400}\n";

/// Narrow screens, forced colours, paper.
const NARROW: &[u8] = b"\
    @media screen and (max-width:64rem){\n\
    .wide{overflow-x:auto;max-width:100%}\n\
    .wide thead th{position:static}\n\
    .wide td{overflow-wrap:break-word}\n\
    .wide .sig td:last-child{min-width:16rem}\n\
    :is(.nums,.sig,.chg) tbody th{overflow-wrap:anywhere;min-width:8rem}\n\
    }\n\
    @media screen and (max-width:48rem){\n\
    body{padding:.75rem}\n\
    .home{grid-template-columns:1fr}\n\
    .map tr>:first-child{width:3.6rem}\n\
    .map :is(th,td){height:1.3rem}\n\
    .bits{font-size:.75rem}.bits :is(th,td){padding:.1rem .2rem}\
    .bits tr>:first-child{width:5.4rem}\n\
    .strip tr>:first-child{width:7rem}\n\
    }\n\
    @media(forced-colors:active){.l,.h,.f{outline:1px solid}.bar{height:1.1em}\
    .u,td.v,.p,.y,.moved{border:2px solid}.strip .taken{background:CanvasText}}\n\
    @media print{body{max-width:none;padding:0;font-size:9.5px}html{font-size:10.5px}\
    .n,form{display:none}thead th{position:static}\
    details::details-content{content-visibility:visible;block-size:auto;height:auto}\n\
    tr,.card,.bits,.map{break-inside:avoid}h2,h3,summary{break-after:avoid}\
    .wide{max-height:none!important;overflow:visible!important}a{color:inherit}}\n";

/// The style of a page, in order. It begins on a line of its own.
pub(crate) const STYLE: &[&[u8]] = &[b"\n", PAGE, LETTERS, HEAD, TABLES, MAP, BITS, NARROW];
