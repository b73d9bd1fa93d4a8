/// A page that processes may share: of the image, of the zygote window, or of a large object by the object's number.
#[derive(Clone, Copy, Debug, PartialEq, Eq)]
pub enum PageName {
    Image(u32),
    Zygote(u32),
    Large(u32, u32),
}

/// A card of the image or of the zygote window: 1,024 bytes.
#[derive(Clone, Copy, Debug, PartialEq, Eq)]
pub enum Card {
    Image(u32),
    Zygote(u32),
}

/// A page's label: the line that made the page, or the first that touched it since the process's last fork.
#[derive(Clone, Copy, Debug, PartialEq, Eq)]
pub struct Label {
    pub page: PageName,
    pub line: u64,
}
