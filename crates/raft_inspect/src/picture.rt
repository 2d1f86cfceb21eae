//! A picture of a log: its files in a row for each queue, to scale, with what the index refers to of each.

use crate::report::queue_name;
use crate::svg::{Area, Svg, share, size_text};
use crate::usage::{FileUsage, GroupUsage, LogUsage, QueueUsage};
use std::alloc::{AllocError, Global};

/// The size of the picture, and the place of its rows, in pixels.
const WIDTH: u64 = 1200;

const HEIGHT: u64 = 470;

/// Lengths in hundredths of a pixel.
const LEFT: u64 = 4_000;

const ROW_WIDTH: u64 = 112_000;

const ROW_HEIGHT: u64 = 8_000;

const FIRST_ROW: u64 = 7_500;

const SECOND_ROW: u64 = 22_500;

const LEGEND: u64 = 37_500;

/// A file that is narrower has no number under it.
const LABEL_WIDTH: u64 = 4_500;

/// The colours of the largest groups.
const COLORS: [&str; 10] = [
    "#4477aa", "#ee6677", "#228833", "#ccbb44", "#66ccee", "#aa3377", "#ee8866", "#44bb99",
    "#332288", "#997700",
];

const OTHERS: &str = "#777777";

const UNREFERRED: &str = "#e4e4e4";

/// The picture in SVG, under a title. Both rows have one scale.
pub fn draw(alloc: Global, title: &str, usage: &LogUsage) -> Result<String, AllocError> {
    let groups = largest_groups(alloc, &usage.groups)?;
    let whole = total(&usage.append).max(total(&usage.rewrite));
    let mut svg = Svg::new(alloc, WIDTH, HEIGHT);
    svg.label(LEFT, 3_000, "start", title);
    add_row(alloc, &mut svg, &usage.append, FIRST_ROW, whole, &groups);
    add_row(alloc, &mut svg, &usage.rewrite, SECOND_ROW, whole, &groups);
    add_legend(alloc, &mut svg, &groups);
    svg.end()
}

fn total(queue: &QueueUsage) -> u64 {
    let mut sum = 0u64;
    for file in &queue.files {
        sum = sum.saturating_add(file.len);
    }
    sum
}

fn referred(queue: &QueueUsage) -> u64 {
    let mut sum = 0u64;
    for file in &queue.files {
        sum = sum.saturating_add(file.referred());
    }
    sum
}

// The ten groups of which most bytes are referred to, the greatest first.
fn largest_groups(alloc: Global, all: &[GroupUsage]) -> Result<Vec<GroupUsage>, AllocError> {
    let mut groups = all.to_vec(alloc)?;
    groups.sort_by_key(|group| u64::MAX - group.bytes)?;
    groups.truncate(COLORS.len());
    Ok(groups)
}

fn color_of(groups: &[GroupUsage], group: u64) -> &'static str {
    for (other, color) in groups.iter().zip(&COLORS) {
        if other.group == group {
            return color;
        }
    }
    OTHERS
}

fn add_row(
    alloc: Global,
    svg: &mut Svg,
    queue: &QueueUsage,
    y: u64,
    whole: u64,
    groups: &[GroupUsage],
) {
    let title = svg.made(row_title(alloc, queue));
    svg.label(LEFT, y.saturating_sub(800), "start", title.as_str());
    let mut begin = 0u64;
    for file in &queue.files {
        let end = begin.saturating_add(file.len);
        let (left, right) = (share(begin, whole, ROW_WIDTH), share(end, whole, ROW_WIDTH));
        let area = Area {
            x: LEFT + left,
            y,
            width: right.saturating_sub(left),
            height: ROW_HEIGHT,
        };
        add_file(alloc, svg, file, area, groups);
        begin = end;
    }
}

// The queue, its span of numbers, its bytes, and how many of them are referred to.
fn row_title(alloc: Global, queue: &QueueUsage) -> Result<String, AllocError> {
    let name = queue_name(queue.queue);
    let (Some(first), Some(last)) = (queue.files.first(), queue.files.last()) else {
        return format!(in alloc; "{name}: no files");
    };
    let (first, last) = (first.id.seq, last.id.seq);
    let (all, used) = (total(queue), referred(queue));
    let percent = share(used, all, 100);
    let (all, used) = (size_text(alloc, all)?, size_text(alloc, used)?);
    let count = queue.files.len();
    format!(in alloc;
        "{name}: files {first} to {last} ({count}), {all}; the index refers to {used} ({percent} %)"
    )
}

fn add_file(alloc: Global, svg: &mut Svg, file: &FileUsage, area: Area, groups: &[GroupUsage]) {
    let told = svg.made(file_text(alloc, file));
    svg.rect(area, UNREFERRED, told.as_str());
    add_groups(alloc, svg, file, area, groups);
    svg.frame(area);
    if area.width >= LABEL_WIDTH {
        let number = svg.made(format!(in alloc; "{}", file.id.seq));
        let middle = area.x.saturating_add(area.width / 2);
        let below = area.y.saturating_add(area.height).saturating_add(1_600);
        svg.label(middle, below, "middle", number.as_str());
    }
}

fn file_text(alloc: Global, file: &FileUsage) -> Result<String, AllocError> {
    let (all, used) = (
        size_text(alloc, file.len)?,
        size_text(alloc, file.referred())?,
    );
    format!(in alloc; "{}: {all}, the index refers to {used}", file.path)
}

// Referenced bytes are drawn from the bottom up, group by group.
fn add_groups(alloc: Global, svg: &mut Svg, file: &FileUsage, area: Area, groups: &[GroupUsage]) {
    let bottom = area.y.saturating_add(area.height);
    let mut below = 0u64;
    for (group, bytes) in &file.groups {
        let above = below.saturating_add(*bytes);
        let (low, high) = (
            share(below, file.len, area.height),
            share(above, file.len, area.height),
        );
        let part = Area {
            x: area.x,
            y: bottom.saturating_sub(high),
            width: area.width,
            height: high.saturating_sub(low),
        };
        if part.height > 0 {
            let size = svg.made(size_text(alloc, *bytes));
            let told = svg.made(format!(in alloc; "group {group}: {size}"));
            svg.rect(part, color_of(groups, *group), told.as_str());
        }
        below = above;
    }
}

fn add_legend(alloc: Global, svg: &mut Svg, groups: &[GroupUsage]) {
    let mut place = 0u64;
    for (group, color) in groups.iter().zip(&COLORS) {
        let text = svg.made(group_text(alloc, group));
        add_key(svg, place, color, text.as_str());
        place = place.saturating_add(1);
    }
    add_key(svg, 10, OTHERS, "other groups");
    add_key(svg, 11, UNREFERRED, "nothing refers to it");
}

fn group_text(alloc: Global, usage: &GroupUsage) -> Result<String, AllocError> {
    let (group, size) = (usage.group, size_text(alloc, usage.bytes)?);
    match usage.span {
        Some((first, last)) => format!(in alloc;
            "group {group}: {size}, entries {first} to {last}"
        ),
        None => format!(in alloc; "group {group}: {size}"),
    }
}

// A row of the legend has four signs.
fn add_key(svg: &mut Svg, place: u64, color: &str, text: &str) {
    let x = (place % 4).saturating_mul(28_000).saturating_add(LEFT);
    let y = (place / 4).saturating_mul(2_600).saturating_add(LEGEND);
    let area = Area {
        x,
        y,
        width: 1_600,
        height: 1_600,
    };
    svg.rect(area, color, text);
    svg.label(
        x.saturating_add(2_400),
        y.saturating_add(1_300),
        "start",
        text,
    );
}
