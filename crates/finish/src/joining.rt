// The shared sections of a package: what each object gives of a section, one following the other.
use bundle::Item;
use bundle::encoding::ObjectEncoding;
use numbers::sections::STR_OFFSETS;
use strings::entries::Section;

// What is joined: the objects of a bundle, which have one encoding, and the table that holds where their strings stand in the package. Without a table
// str_offsets is joined as it is, as every other section.
#[derive(Clone, Copy)]
pub struct SharedSections<'a> {
    pub encoding: ObjectEncoding,
    pub bundle: &'a [u8],
    pub table: Option<&'a [u32]>,
}

impl SharedSections<'_> {
    ghost use Rattle.std.specs.Prelude.{◌≡◌, length};
    ghost use Rattle.bundle.specs.Encoded.{encoding_is};
    ghost use Rattle.finish.specs.Joining.{Givable, GivenPut, SharedJoinable, SharedPut, remaps, table_lent};

    // The table that is lent, empty where there is none.
    #[tactic(auto, unfolding(crate::specs::Joining::table_lent))]
    fn lent(&self) -> &[u32]
        ensures { result.now ≡ table_lent self.now.table }
    {
        match self.table {
            Some(table) => table,
            None => &[],
        }
    }

    // Whether the entries of a section get places of the table.
    #[tactic(auto, unfolding(crate::specs::Joining::remaps))]
    fn remaps(&self, code: usize) -> bool
        ensures { result ≡ remaps self.now.table code }
    {
        self.table.is_some() && code == STR_OFFSETS
    }

    // What an object gives of a section: its bytes, but of one that is remapped with these places for its entries. Says how many places it took.
    fn put_given(
        &self,
        code: usize,
        bytes: &[u8],
        places: &[u32],
        out: &mut [u8],
        at: usize,
    ) -> usize
        requires { Givable (remaps self.now.table code) (encoding_is self.now.encoding) bytes.now places.now (length out.old) at }
        ensures { GivenPut (remaps self.now.table code) (encoding_is self.now.encoding) bytes.now places.now at out.old out.new result }
    {
        if self.remaps(code) {
            let encoding = self.encoding;
            Section { encoding, bytes }.write_pieces(places, out, at)
        } else {
            octets::put_bytes(out, at, bytes);
            0
        }
    }

    // Of each object its first section of a code, where it has one. The places of all strings stand in the order of the objects.
    pub fn write(&self, code: usize, out: &mut [u8], at: usize)
        requires { SharedJoinable (encoding_is self.now.encoding) self.now.bundle.now self.now.table code (length out.old) at }
        ensures { SharedPut (encoding_is self.now.encoding) self.now.bundle.now self.now.table code at out.old out.new }
    {
        let table = self.lent();
        let mut first = strings::table::places_from(table.len());
        let mut o = at;
        let mut place = 4;
        // Each object says where the next one starts.
        while let Ok(Item::Object { next, .. }) = bundle::next_item(self.bundle, place) {
            let scan = bundle::scan_object(self.bundle, next);
            let start = scan.start[code];
            let bytes = &self.bundle[start..start + scan.size[code]];
            let count = self.put_given(code, bytes, &table[first..], out, o);
            first += count;
            o += bytes.len();
            place = scan.next;
        }
    }
}
